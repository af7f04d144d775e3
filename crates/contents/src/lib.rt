// What both files open with: the table of contents, and the numbers of inputs and outputs behind
// it.
#![tactic(auto)]

pub mod arity;
pub mod reader;
