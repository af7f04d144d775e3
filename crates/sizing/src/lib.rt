// The unfolded sizes of the nodes of a table, front to back, each from those before it.
#![tactic(auto)]

ghost use Rattle.std.specs.Prelude.{◌≡◌, ◌++◌, ℕ, ◌+◌, ◌/◌, ◌<◌, ◌≤◌, length, drop};
ghost use Rattle.refusal.specs.Answers.{answer_of, checked_each};
ghost use Rattle.node.specs.Nodes.{nodes_in};
ghost use Rattle.program.specs.Reading.{output_at};
ghost use Rattle.node.specs.Steps.{Fillable};
ghost use Rattle.wire.specs.Limits.{most_size};
ghost use Rattle.wire.specs.Shown.{shown};
ghost use Rattle.sizing.specs.Sizing.{shown_size, node_sizes};
ghost use Rattle.sizing.specs.Steps.{entry_fits};

use filling::{Fold, fill};
use node::nodes::Node;
use program::reader::output_at;
use refusal::causes::Refusal;
use wire::limits::MOST_SIZE;

// A node's entry in the size list, where its operands have these entries. Neither is over 16,385, so that
// the sum is at most 32,771.
fn joined(a: u16, b: u16) -> u16
    requires { (a ≤ most_size + 1) × (b ≤ most_size + 1) }
    ensures { result ≡ shown most_size (1 + a + b) }
{
    let sum = 1 + a + b;
    sum.min(MOST_SIZE + 1)
}

// The unfolded size of a node, as the size list shows it.
#[derive(Clone, Copy)]
struct Sizes;

impl Fold for Sizes {
    type Item = u16;

    ghost of = { λ s. shown_size };

    ghost over = { λ s n. Unit {0} };

    fn item(&self, node: Node, sizes: &[u16]) -> u16 {
        match node {
            Node::Zero => 1,
            Node::One => 1,
            Node::Input(_) => 1,
            Node::Not(a) => joined(sizes[a as usize], 0),
            Node::Xor(a, b) => joined(sizes[a as usize], sizes[b as usize]),
            Node::And(_, a, b) => joined(sizes[a as usize], sizes[b as usize]),
        }
    }
}

// Stores the entry of each node of a node body at the node's index.
pub fn fill_sizes(nodes: &[u8], sizes: &mut [u16])
    requires { (n : ℕ) × Fillable n nodes.now (length sizes.old) }
    ensures { sizes.new ≡ node_sizes (nodes_in nodes.now) ++ drop (length nodes.now / 6) sizes.old }
{
    fill(&Sizes, nodes, sizes);
}

// Reads the entries of the nodes that the outputs name; the lowest output whose entry is over 16,384
// is refused.
pub fn check_sizes(outputs: &[u8], sizes: &[u16]) -> Result<(), Refusal>
    requires { (k : ℕ) → k < length outputs.now / 2 → output_at outputs.now k < length sizes.now }
    ensures { answer_of result ≡ checked_each (entry_fits sizes.now outputs.now) (length outputs.now / 2) Refusal.Size }
{
    for k in 0..outputs.len() / 2 {
        if MOST_SIZE < sizes[output_at(outputs, k)] {
            return Err(Refusal::Size(k as u64));
        }
    }
    Ok(())
}
