// Numbers of 16 and 32 bits and single bits, as they are kept in bytes, and the limits of files.
#![tactic(auto)]

pub mod bits;
pub mod limits;
pub mod numbers;
