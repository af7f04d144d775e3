// What parsing answers and leaves, as definitions, and what is proved of it: what it writes reads
// back, evaluates to the text's truth value, and compiles to a circuit that computes it. The code
// is in other crates: scanner, emitter, descent, program_writer and formula.
#![tactic(auto)]
