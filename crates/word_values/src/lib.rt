// The values of a table's nodes on 64 questions at once, a word for each node, front to back, each
// from those before it by one operation on whole words.
#![tactic(auto)]

ghost use Rattle.std.specs.Prelude.{◌≡◌, ◌++◌, ◌/◌, length, drop};
ghost use Rattle.node.specs.Nodes.{nodes_in};
ghost use Rattle.node.specs.Steps.{Fillable};
ghost use Rattle.word_values.specs.WordValues.{value_word, node_words};

use filling::{Fold, fill};
use node::nodes::Node;

// A word that is 1 on every question.
const ONES: u64 = 0xffff_ffff_ffff_ffff;

// The word of a node on 64 questions, each of which asks about a bit of every input word.
#[derive(Clone, Copy)]
struct Words<'a> {
    inputs: &'a [u64],
}

impl Fold for Words<'_> {
    type Item = u64;

    ghost of = { λ s e. value_word e s.inputs.now };

    ghost over = { λ s n. n ≡ length s.inputs.now };

    fn item(&self, node: Node, words: &[u64]) -> u64 {
        match node {
            Node::Zero => 0,
            Node::One => ONES,
            Node::Input(j) => self.inputs[j as usize],
            Node::Not(a) => ONES ^ words[a as usize],
            Node::Xor(a, b) => words[a as usize] ^ words[b as usize],
            Node::And(_, a, b) => words[a as usize] & words[b as usize],
        }
    }
}

// Stores the word of each node of a node body at the node's index, each evaluated once for all 64
// questions.
pub fn fill_words(nodes: &[u8], inputs: &[u64], words: &mut [u64])
    requires { Fillable (length inputs.now) nodes.now (length words.old) }
    ensures { words.new ≡ node_words (nodes_in nodes.now) inputs.now ++ drop (length nodes.now / 6) words.old }
{
    fill(&Words { inputs }, nodes, words);
}
