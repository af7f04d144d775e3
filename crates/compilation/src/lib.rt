// What compiling a program file gives, as definitions, and demand 3 with its proof. The code that
// compiles is the crate compile.
#![tactic(auto)]
