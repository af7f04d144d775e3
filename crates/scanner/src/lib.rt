// The bytes of a text, and the leaves of a formula: inputs, 0 and 1.
//
// A text is handed on by the address of its slice, here and by the readers above: otherwise each
// call would copy its pointer and its length, which made reading a fifth slower.
#![tactic(auto)]

ghost use Rattle.std.specs.Prelude.{◌≡◌, slice_get};
ghost use Rattle.scanner.specs.Scanning.{Scannable, digit_at, NumberRead, LeafRead};

use node::kinds::Kind;
use refusal::causes::Refusal;

// A leaf: the kind of its node, the node's first field, and where its text ends.
#[derive(Clone, Copy)]
pub struct Leaf {
    pub kind: u8,
    pub field: usize,
    pub end: usize,
}

// The byte at an index, if the text goes so far.
pub fn byte_at(text: &&[u8], at: usize) -> Option<u8>
    ensures { result ≡ slice_get text.now.now at }
{
    text.get(at).copied()
}

// The digit at an index, if one stands there.
fn digit_at(text: &&[u8], at: usize) -> Option<usize>
    ensures { result ≡ digit_at text.now.now at }
{
    match byte_at(text, at) {
        Some(b @ b'0'..=b'9') => Some((b - b'0') as usize),
        _ => None,
    }
}

// The input whose number starts at an index, one digit or two not starting with 0, and below
// inputs. So many nodes are made before it.
fn number(text: &&[u8], inputs: usize, at: usize, made: usize) -> Result<Leaf, Refusal>
    requires { Scannable text.now.now at }
    ensures { NumberRead inputs text.now.now at made result }
{
    let first = digit_at(text, at).ok_or(Refusal::Text(at as u64))?;
    if inputs <= first {
        return Err(Refusal::Node(made as u64));
    }
    let one = Leaf {
        kind: Kind::Input.number(),
        field: first,
        end: at + 1,
    };
    if first == 0 {
        return Ok(one);
    }
    let Some(second) = digit_at(text, at + 1) else {
        return Ok(one);
    };
    let j = 10 * first + second;
    if inputs <= j {
        return Err(Refusal::Node(made as u64));
    }
    Ok(Leaf {
        field: j,
        end: at + 2,
        ..one
    })
}

// The leaf at an index: an input, 0 or 1. Both constants go one way, as a processor cannot foresee
// which of them comes.
pub fn read_leaf(text: &&[u8], inputs: usize, at: usize, made: usize) -> Result<Leaf, Refusal>
    requires { Scannable text.now.now at }
    ensures { LeafRead inputs text.now.now at made result }
{
    match byte_at(text, at) {
        Some(b'x') => number(text, inputs, at + 1, made),
        Some(b @ b'0'..=b'1') => {
            let kind = if b == b'0' { Kind::Zero } else { Kind::One };
            Ok(Leaf {
                kind: kind.number(),
                field: 0,
                end: at + 1,
            })
        }
        _ => Err(Refusal::Text(at as u64)),
    }
}
