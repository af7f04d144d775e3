// Gates appended to those that stand in a circuit area: one gate, or gates that stand there,
// reversed.
#![tactic(auto)]

pub mod reverser;
pub mod writer;
