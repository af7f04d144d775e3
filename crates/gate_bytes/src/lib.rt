// The eight bytes of a gate in a circuit file, read and stored.
#![tactic(auto)]

pub mod fields;
pub mod reader;
pub mod writer;
