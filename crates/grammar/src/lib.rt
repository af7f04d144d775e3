// The formulas that members type, as definitions: how they are built and written, what they mean,
// their nodes, and the texts of the language. What is proved of them by themselves is here; reading
// them is in other crates: automaton says what reading gives, and descent and formula read.
#![tactic(auto)]
