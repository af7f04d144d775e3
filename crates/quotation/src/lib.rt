// What quoting a program file gives, as definitions, and that it agrees with compiling. The code
// that quotes is the crate quote.
#![tactic(auto)]
