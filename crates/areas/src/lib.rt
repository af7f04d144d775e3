// What is stored in a lent area: the table of contents of a file, a circuit's head and its gates;
// and the gates that stand there.
#![tactic(auto)]

pub mod gates;
pub mod table;
pub mod writer;
