// The starred examples of document 01 and cases of document 02, proved as one table about the
// definitions: specs/Examples.antt is the table, proofs/ has its proof. There is no function here.
#![tactic(auto)]
