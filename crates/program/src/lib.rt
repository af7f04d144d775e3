// Program files: the reader of whole files, and the trees of their nodes and outputs.
#![tactic(auto)]

pub mod reader;
