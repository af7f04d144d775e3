// The values of the nodes of a table, front to back, each from those before it.
ghost use Rattle.std.specs.Prelude.{◌≡◌, ◌++◌, ◌/◌, length, drop};
ghost use Rattle.node.specs.Exprs.{value};
ghost use Rattle.node.specs.Nodes.{nodes_in};
ghost use Rattle.node.specs.Trees.{node_values};
ghost use Rattle.node.specs.Steps.{Fillable};
ghost use Rattle.wire.specs.Bits.{Bits};

use filling::{Fold, fill};
use node::nodes::Node;
use wire::bits::{and_bits, xor_bits};

// The value of a node on these input bits.
#[derive(Clone, Copy)]
struct Values<'a> {
    inputs: &'a [u8],
    ghost bits: { Bits inputs.now },
}

impl Fold for Values<'_> {
    type Item = u8;

    ghost of = { λ s e. value e s.inputs.now };

    ghost over = { λ s n. n ≡ length s.inputs.now };

    fn item(&self, node: Node, values: &[u8]) -> u8 {
        match node {
            Node::Zero => 0,
            Node::One => 1,
            Node::Input(j) => self.inputs[j as usize],
            Node::Not(a) => xor_bits(1, values[a as usize]),
            Node::Xor(a, b) => xor_bits(values[a as usize], values[b as usize]),
            Node::And(_, a, b) => and_bits(values[a as usize], values[b as usize]),
        }
    }
}

// Stores the value of each node of a node body at the node's index, each evaluated once.
pub fn fill_values(nodes: &[u8], inputs: &[u8], values: &mut [u8])
    requires { Fillable (length inputs.now) nodes.now (length values.old) × Bits inputs.now }
    ensures { values.new ≡ node_values (nodes_in nodes.now) inputs.now ++ drop (length nodes.now / 6) values.old }
{
    fill(&Values { inputs }, nodes, values);
}
