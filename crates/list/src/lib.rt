// The listing of a program file's circuit as text.
#![tactic(auto)]

ghost use Rattle.std.specs.Prelude.{◌≡◌, List, ◌++◌, ℕ, length, drop};
ghost use Rattle.list.specs.Listing.{listing_of};
ghost use Rattle.line.specs.Putting.{Put};
ghost use Rattle.list.specs.Printing.{printed, Listable};

use areas::gates::body_in;
use circuit::layout::LONGEST_FILE;
use circuit::reader::CircuitHead;
use compile::compile;
use line::LineWriter;
use refusal::causes::Refusal;
use text::{put_gate_lines, put_head};
use wire::limits::{MOST_GATES, MOST_NODES};

// How many bytes a listing takes at most: 96 for the first line and 20 for each gate.
pub const LISTING_LENGTH: usize = 96 + 20 * MOST_GATES;

// Puts the listing of the answer; on a result the gates stand in the area.
#[tactic(auto, unfolding(crate::specs::Printing::printed))]
fn put_listing(writer: &mut LineWriter, answer: Result<CircuitHead, Refusal>, area: &[u8])
    requires { Listable answer area.now writer.old }
    ensures { Put (printed answer area.now) writer.old writer.new }
{
    match answer {
        Ok(head) => {
            put_head(writer, head);
            put_gate_lines(writer, body_in(area, head.gates));
        }
        Err(why) => writer.put_refusal(why),
    }
}

// Compiles a program file with this grant and puts the listing of the answer at the start of the
// buffer, whose other bytes stay as they were; how many bytes the listing takes. There is no heap,
// so size list and area are arrays of the largest size, and the caller lends the buffer.
pub fn list(input: &[u8], grant: u64, out: &mut [u8; LISTING_LENGTH]) -> usize
    ensures { let text : List ℕ = listing_of input.now grant in (result ≡ length text) × (out.new ≡ text ++ drop result out.old) }
{
    let mut sizes = [0u16; MOST_NODES];
    let mut area = [0u8; LONGEST_FILE];
    let answer = compile(input, grant, &mut sizes, &mut area);
    let mut writer = LineWriter { out, end: 0 };
    put_listing(&mut writer, answer, &area);
    writer.end
}
