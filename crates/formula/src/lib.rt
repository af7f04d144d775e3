// The service parse: a formula as members type it, read and written as a program file.
#![tactic(auto)]

ghost use Rattle.std.specs.Prelude.{◌≡◌, length};
ghost use Rattle.refusal.specs.Answers.{map_answer, answer_of};
ghost use Rattle.wire.specs.Areas.{area_after};
ghost use Rattle.descent.specs.Readers.{Readable};
ghost use Rattle.parsing.specs.Parsing.{parse_of};
ghost use Rattle.program_writer.specs.OneOutput.{FewNodes};
ghost use Rattle.formula.specs.Steps.{WholeRead, delivery};

use descent::sum;
use emitter::Part;
use program_writer::{FIRST_NODE, write_program};
use refusal::causes::Refusal;
use wire::limits::{MOST_INPUTS, MOST_OPEN, MOST_TEXT};

// Reads a whole text and stores its nodes: how many there are.
fn whole(text: &[u8], inputs: usize, nodes: &mut [u8]) -> Result<usize, Refusal>
    requires { Readable inputs text.now 0 0 (length nodes.old) }
    ensures { WholeRead inputs text.now nodes.old nodes.new result }
{
    let read = sum(&text, inputs, 0, MOST_OPEN, 0, nodes)?;
    if read.end < text.len() {
        return Err(Refusal::Text(read.end as u64));
    }
    Ok(read.made)
}

// Writes the program file of a node body where the area has room for it; where there is none the
// whole area is zero.
fn deliver(area: &mut [u8], inputs: usize, nodes: &[u8]) -> Result<usize, Refusal>
    requires { FewNodes inputs (length nodes.now) }
    ensures result_value { answer_of result ≡ map_answer length (delivery inputs nodes.now (length area.old)) }
    ensures area_after { area.new ≡ area_after (delivery inputs nodes.now (length area.old)) area.old }
{
    let long = FIRST_NODE + nodes.len() + 2;
    if area.len() < long {
        area.fill(0);
        return Err(Refusal::Room((nodes.len() / 6) as u64));
    }
    write_program(area, inputs, nodes);
    Ok(long)
}

// Reads a formula over so many inputs and writes its program file at the start of the area. The
// nodes are made beside the area, which stays as it was when a byte of the text is refused.
pub fn parse(text: &[u8], inputs: u64, area: &mut [u8]) -> Result<usize, Refusal>
    ensures result_value { answer_of result ≡ (parse_of text.now inputs area.old).answer }
    ensures area_after { area.new ≡ (parse_of text.now inputs area.old).area }
{
    if MOST_TEXT < text.len() {
        return Err(Refusal::TextLength);
    }
    if (MOST_INPUTS as u64) < inputs {
        return Err(Refusal::Range);
    }
    // Room for 4,096 nodes, as a text makes no more than it has bytes. There is no heap, so it is
    // an array and no Vec.
    let mut nodes = [0u8; 24576];
    let made = whole(text, inputs as usize, &mut nodes)?;
    deliver(area, inputs as usize, &nodes[..6 * made])
}
