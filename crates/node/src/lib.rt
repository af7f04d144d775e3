// Nodes: their six bytes in a program file, and what a node means.
#![tactic(auto)]

pub mod fields;
pub mod kinds;
pub mod nodes;
