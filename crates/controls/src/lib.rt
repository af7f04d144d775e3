// The operands of an AND: an input is its own control, and any other node is built on a work line.
#![tactic(auto)]

ghost use Rattle.std.specs.Prelude.{◌≡◌};
ghost use Rattle.construction.specs.Construction.{input_of};
ghost use Rattle.program.specs.Tables.{tree_in, Valid};
ghost use Rattle.controls.specs.Controls.{found};

use node::nodes::{Node, node_at};

// The input that node i is, where it is one: as an operand of AND it is the control itself, and any
// other node is built on a line of its own.
pub fn input_of(nodes: &[u8], i: usize) -> Option<u16>
    requires { Valid nodes.now i }
    ensures { found result ≡ input_of (tree_in nodes.now i) }
{
    match node_at(nodes, i) {
        Node::Input(j) => Some(j),
        _ => None,
    }
}
