// Circuit files: where their parts lie, and the reader.
#![tactic(auto)]

pub mod layout;
pub mod reader;
