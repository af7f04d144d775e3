// The fields of a node in a program file.
ghost use Rattle.std.specs.Prelude.{◌≡◌, ◌&&◌, ◌+◌, ◌*◌, ◌≤◌, length};
ghost use Rattle.node.specs.Nodes.{node_of, mark_fits, operands_fit};
ghost use Rattle.node.specs.Steps.{fields_at};

use crate::kinds::Kind;
use crate::nodes::Node;
use wire::numbers::get16;

// A node's six bytes: its kind's number, its mark, and the number of its input or the indices of its
// operands. The kind is a byte, which is tested as such: to make a Kind of it would test it once more.
#[derive(Clone, Copy)]
pub struct Fields {
    kind: u8,
    mark: u8,
    a: u16,
    b: u16,
}

impl Fields {
    // Those of node i of a node body.
    pub(crate) fn at(body: &[u8], i: usize) -> Fields
        requires { 6 * (i + 1) ≤ length body.now }
        ensures { result ≡ fields_at body.now i }
    {
        let at = 6 * i;
        Fields {
            kind: body[at],
            mark: body[at + 1],
            a: get16(body, at + 2),
            b: get16(body, at + 4),
        }
    }

    // The node. A kind above 5 or a mark that is not right does not come here: cause 5 refuses it. The
    // leaves are tested first, so that no jump table is made of it: where that lies would decide how
    // fast a recursion over nodes is.
    pub(crate) fn node(self) -> Node
        ensures { result ≡ node_of self.kind self.mark self.a self.b }
    {
        if self.kind < Kind::Not as u8 {
            if self.kind == Kind::Input as u8 {
                Node::Input(self.a)
            } else if self.kind == Kind::One as u8 {
                Node::One
            } else {
                Node::Zero
            }
        } else if self.kind == Kind::Xor as u8 {
            Node::Xor(self.a, self.b)
        } else if self.kind == Kind::Not as u8 {
            Node::Not(self.a)
        } else {
            Node::And(self.mark == 1, self.a, self.b)
        }
    }

    // Whether the mark is right for the kind. 0 is tested first: it is right for every kind, and most
    // nodes have it.
    fn mark_fits(self) -> bool
        ensures { result ≡ mark_fits self.kind self.mark }
    {
        self.mark == 0 || (self.kind == Kind::And as u8) & (self.mark == 1)
    }

    // Whether a and b are right for the kind, in node i over so many inputs. The tests are put together
    // by &, not &&: a processor cannot foresee which of them fails, and && would branch on each.
    fn operands_fit(self, inputs: usize, i: usize) -> bool
        ensures { result ≡ operands_fit inputs i self.kind self.a self.b }
    {
        let a = self.a as usize;
        let b = self.b as usize;
        if self.kind <= Kind::One as u8 {
            (a == 0) & (b == 0)
        } else if self.kind == Kind::Input as u8 {
            (a < inputs) & (b == 0)
        } else if self.kind == Kind::Not as u8 {
            (a < i) & (b == 0)
        } else if self.kind <= Kind::And as u8 {
            (a < i) & (b < i)
        } else {
            false
        }
    }

    // Whether they are in order, in node i over so many inputs.
    pub(crate) fn fit(self, inputs: usize, i: usize) -> bool
        ensures { result ≡ (mark_fits self.kind self.mark && operands_fit inputs i self.kind self.a self.b) }
    {
        self.mark_fits() & self.operands_fit(inputs, i)
    }
}
