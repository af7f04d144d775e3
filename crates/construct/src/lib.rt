// The code of the construction (the crate construction has its definitions): the gates of a tree,
// appended to those of a circuit.
#![tactic(auto)]

pub mod builder;
