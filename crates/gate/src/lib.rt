// Gates: what they are, and what they do to the lines.
#![tactic(auto)]

pub mod gates;
pub mod steps;
