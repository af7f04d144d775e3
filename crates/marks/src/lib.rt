// What marks (document 02, A7) do to a circuit, as theorems: every marked AND restores the lines
// that it frees, and a program without marks has the gates that it had before there were any. No
// function.
#![tactic(auto)]
