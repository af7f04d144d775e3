// The causes for which a service refuses, and what services answer.
#![tactic(auto)]

pub mod causes;
