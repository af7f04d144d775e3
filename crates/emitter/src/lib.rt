// The nodes of what was read, stored in a node body.
#![tactic(auto)]

ghost use Rattle.std.specs.Prelude.{◌≡◌, ◌≤◌, length, IfOk};
ghost use Rattle.wire.specs.Limits.{most_text};
ghost use Rattle.emitter.specs.Emitting.{put_fields, Storable, Joinable, HandsOn, follows_by, LeafStored, Joined, Negated, closed};

use node::kinds::Kind;
use refusal::causes::Refusal;
use scanner::{Leaf, byte_at};
use wire::numbers::put16;

// What was read: where it ends, and how many nodes are made by then.
#[derive(Clone, Copy)]
pub struct Part {
    pub end: usize,
    pub made: usize,
}

// Stores node i: its kind, no mark, and its fields.
fn write_node(nodes: &mut [u8], i: usize, kind: u8, a: usize, b: usize)
    requires { Storable i a b (length nodes.old) }
    ensures { nodes.new ≡ put_fields nodes.old i kind a b }
{
    let at = 6 * i;
    nodes[at] = kind;
    nodes[at + 1] = 0;
    put16(nodes, at + 2, a as u16);
    put16(nodes, at + 4, b as u16);
}

// Stores the node of a leaf that was read, behind so many nodes; a refusal is handed on.
pub fn store_leaf(
    read: Result<Leaf, Refusal>,
    made: usize,
    nodes: &mut [u8],
) -> Result<Part, Refusal>
    requires { IfOk read (λ leaf. Storable made leaf.field 0 (length nodes.old)) }
    ensures { HandsOn (λ leaf part. LeafStored leaf made nodes.old nodes.new part) read result }
{
    let leaf = read?;
    write_node(nodes, made, leaf.kind, leaf.field, 0);
    Ok(Part {
        end: leaf.end,
        made: made + 1,
    })
}

// Stores the NOT of a factor that was read behind a !; a refusal is handed on.
pub fn negate(read: Result<Part, Refusal>, nodes: &mut [u8]) -> Result<Part, Refusal>
    requires { IfOk read (λ under. Joinable 1 under.made (length nodes.old)) }
    ensures { HandsOn (λ under part. Negated under nodes.old nodes.new part) read result }
{
    let under = read?;
    write_node(nodes, under.made, Kind::Not.number(), under.made - 1, 0);
    Ok(Part {
        made: under.made + 1,
        ..under
    })
}

// Stores the node that joins the last of the m nodes before an operator and the last one of what was
// read behind it; a refusal is handed on.
pub fn join(
    read: Result<Part, Refusal>,
    m: usize,
    kind: u8,
    nodes: &mut [u8],
) -> Result<Part, Refusal>
    requires { IfOk read (λ next. Joinable m next.made (length nodes.old)) }
    ensures { HandsOn (λ next part. Joined kind m next nodes.old nodes.new part) read result }
{
    let next = read?;
    write_node(nodes, next.made, kind, m - 1, next.made - 1);
    Ok(Part {
        made: next.made + 1,
        ..next
    })
}

// Whether this byte follows what was read; behind a refusal none does. As in follows_by, a byte
// behind the end of the text counts as 0, and no character is 0: so none follows there.
pub fn follows(text: &&[u8], read: Result<Part, Refusal>, b: u8) -> bool
    ensures { result ≡ follows_by text.now.now read b }
{
    let Ok(so) = read else {
        return false;
    };
    byte_at(text, so.end).unwrap_or(0) == b
}

// Takes the ) behind a sum in brackets, or refuses what stands there; a refusal is handed on.
pub fn close(text: &&[u8], read: Result<Part, Refusal>) -> Result<Part, Refusal>
    requires { length text.now.now ≤ most_text }
    ensures { result ≡ closed text.now.now read }
{
    let inner = read?;
    if !follows(text, Ok(inner), b')') {
        return Err(Refusal::Text(inner.end as u64));
    }
    Ok(Part {
        end: inner.end + 1,
        ..inner
    })
}
