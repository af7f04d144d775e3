// Reading by recursive descent: the readers of sums, products and factors call each other. At each
// call the bytes that remain get fewer, or the level of the grammar falls; and at each ! and
// bracket one fewer may be open.
//
// The readers' parameters are no struct: behind &mut it would be lent as a whole, its nodes with
// it, so that each reader would have to promise that it leaves the text and the inputs unchanged.
#![tactic(auto)]

ghost use Rattle.std.specs.Prelude.{length};
ghost use Rattle.descent.specs.Readers.{Readable, SumRead, ProductRead, FactorRead};

use emitter::{Part, close, follows, join, negate, store_leaf};
use node::kinds::Kind;
use refusal::causes::Refusal;
use scanner::{byte_at, read_leaf};

// Products joined by ^, over so many inputs, from an index on, where left may still be opened and
// so many nodes are made.
#[cycle(readers)]
pub fn sum(
    text: &&[u8],
    inputs: usize,
    at: usize,
    left: usize,
    made: usize,
    nodes: &mut [u8],
) -> Result<Part, Refusal>
    requires { Readable inputs text.now.now at made (length nodes.old) }
    ensures { SumRead inputs text.now.now at left made nodes.old nodes.new result }
{
    let mut so = product(text, inputs, at, left, made, nodes)?;
    while follows(text, Ok(so), b'^') {
        let next = product(text, inputs, so.end + 1, left, so.made, nodes);
        so = join(next, so.made, Kind::Xor.number(), nodes)?;
    }
    Ok(so)
}

// Factors joined by &. It is put in place where it is called: a call for each operand of ^ made
// reading a tenth slower.
#[cycle(readers)]
#[inline(always)]
fn product(
    text: &&[u8],
    inputs: usize,
    at: usize,
    left: usize,
    made: usize,
    nodes: &mut [u8],
) -> Result<Part, Refusal>
    requires { Readable inputs text.now.now at made (length nodes.old) }
    ensures { ProductRead inputs text.now.now at left made nodes.old nodes.new result }
{
    let mut so = factor(text, inputs, at, left, made, nodes)?;
    while follows(text, Ok(so), b'&') {
        let next = factor(text, inputs, so.end + 1, left, so.made, nodes);
        so = join(next, so.made, Kind::And.number(), nodes)?;
    }
    Ok(so)
}

// ! and a factor, a sum in brackets, or a leaf.
#[cycle(readers)]
fn factor(
    text: &&[u8],
    inputs: usize,
    at: usize,
    left: usize,
    made: usize,
    nodes: &mut [u8],
) -> Result<Part, Refusal>
    requires { Readable inputs text.now.now at made (length nodes.old) }
    ensures { FactorRead inputs text.now.now at left made nodes.old nodes.new result }
{
    match byte_at(text, at) {
        Some(b'!') => {
            if left == 0 {
                return Err(Refusal::Depth(at as u64));
            }
            let under = factor(text, inputs, at + 1, left - 1, made, nodes);
            negate(under, nodes)
        }
        Some(b'(') => {
            if left == 0 {
                return Err(Refusal::Depth(at as u64));
            }
            let inner = sum(text, inputs, at + 1, left - 1, made, nodes);
            close(text, inner)
        }
        _ => {
            let leaf = read_leaf(text, inputs, at, made);
            store_leaf(leaf, made, nodes)
        }
    }
}
