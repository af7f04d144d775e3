// Reading a text of the language of formulas, as definitions: an automaton that reads a byte at a
// time, and what each of its answers says of the text, by the grammar alone. The code is in other
// crates: descent reads sums, products and factors, and formula whole texts.
#![tactic(auto)]
