// The construction of document 001, section 4.1, as definitions: the gates of a tree, of a share
// and of a circuit, how many they are, and what is proved of them. The code is in other crates:
// counting counts these gates, and progress, construct and shares write them.
#![tactic(auto)]
