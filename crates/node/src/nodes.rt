// The nodes of a program: each is one of six things, and its operands are lower in the table.
ghost use Rattle.std.specs.Prelude.{◌≡◌, ◌+◌, ◌*◌, ◌≤◌, length};
ghost use Rattle.refusal.specs.Answers.{answer_of};
ghost use Rattle.node.specs.Nodes.{node_at};
ghost use Rattle.node.specs.Steps.{read_node};

use crate::fields::Fields;
use refusal::causes::Refusal;

// A node with the number of its input or the indices of its operands; an AND says first whether it is
// marked.
#[derive(Clone, Copy, Debug, PartialEq, Eq)]
pub enum Node {
    Zero,
    One,
    Input(u16),
    Not(u16),
    Xor(u16, u16),
    And(bool, u16, u16),
}

// Node i of a node body.
pub fn node_at(body: &[u8], i: usize) -> Node
    requires { 6 * (i + 1) ≤ length body.now }
    ensures { result ≡ node_at body.now i }
{
    Fields::at(body, i).node()
}

// Node i of a node body; one that is not in order is refused.
pub fn read_node(body: &[u8], i: usize, inputs: usize) -> Result<Node, Refusal>
    requires { 6 * (i + 1) ≤ length body.now }
    ensures { answer_of result ≡ read_node inputs body.now i }
{
    let fields = Fields::at(body, i);
    if !fields.fit(inputs, i) {
        return Err(Refusal::Node(i as u64));
    }
    Ok(fields.node())
}
