// The reader of circuit files: causes 1 to 4 for the head, 12 for the gates, and 13 for bytes that
// come with a file, one for each line.
ghost use Rattle.std.specs.Prelude.{◌≡◌, ◌/◌, ◌≤◌, length};
ghost use Rattle.refusal.specs.Answers.{map_answer, answer_of, checked_each};
ghost use Rattle.gate_bytes.specs.GateBytes.{gate_fits};
ghost use Rattle.contents.specs.Contents.{entry_length, body_of};
ghost use Rattle.contents.specs.Steps.{Laid};
ghost use Rattle.circuit.specs.Circuits.{head_of, head_lines, most_lines};
ghost use Rattle.circuit.specs.Format.{head_length};
ghost use Rattle.circuit.specs.Reading.{lengths_fit, ranges_fit, head_in, read_head, read_circuit, read_with_lines};

use crate::layout::HEAD_LENGTH;
use contents::arity::arity_fits;
use contents::reader::{body, entry_length, read_contents};
use gate_bytes::reader::{GateRead, read_gate};
use refusal::causes::Refusal;
use wire::bits::bits_fit;
use wire::limits::{MOST_GATES, MOST_WORK};
use wire::numbers::get16;

// How many inputs, outputs, work lines and gates a circuit has.
#[derive(Clone, Copy)]
pub struct CircuitHead {
    pub inputs: usize,
    pub outputs: usize,
    pub work: usize,
    pub gates: usize,
}

// How many lines a circuit has, where its numbers are in range.
fn line_count(head: CircuitHead) -> usize
    requires { head_lines head ≤ most_lines }
    ensures { result ≡ head_lines head }
{
    head.inputs + head.outputs + head.work
}

// Whether the bodies have the lengths that their layout asks for.
fn lengths_fit(file: &[u8]) -> bool
    requires { Laid 2 file.now }
    ensures { result ≡ lengths_fit file.now }
{
    let head = entry_length(file, 0) as usize == HEAD_LENGTH;
    let gates = entry_length(file, 1) as usize;
    head && gates % 8 == 0 && gates / 8 <= MOST_GATES
}

// Whether the numbers of inputs, outputs and work lines are in range.
fn ranges_fit(file: &[u8]) -> bool
    requires { Laid 2 file.now × (entry_length file.now 0 ≡ head_length) }
    ensures { result ≡ ranges_fit file.now }
{
    let head = body(file, 0);
    arity_fits(head) && get16(head, 4) as u64 <= MOST_WORK
}

// The numbers that the head and the length of the gate body give.
fn head_in(file: &[u8]) -> CircuitHead
    requires { Laid 2 file.now × (entry_length file.now 0 ≡ head_length) }
    ensures { result ≡ head_in file.now }
{
    let head = body(file, 0);
    CircuitHead {
        inputs: get16(head, 0) as usize,
        outputs: get16(head, 2) as usize,
        work: get16(head, 4) as usize,
        gates: entry_length(file, 1) as usize / 8,
    }
}

// Reads the table of contents and the head, and does not look at the gates.
pub fn read_head(file: &[u8]) -> Result<CircuitHead, Refusal>
    ensures { answer_of result ≡ read_head file.now }
{
    read_contents(file, &[17, 18])?;
    if !lengths_fit(file) {
        return Err(Refusal::BodyLength);
    }
    if !ranges_fit(file) {
        return Err(Refusal::Range);
    }
    Ok(head_in(file))
}

// The gate body of a file.
pub fn gate_body(file: &[u8]) -> &[u8]
    requires { Laid 2 file.now }
    ensures { result.now ≡ body_of file.now 1 }
{
    body(file, 1)
}

// Reads the gates of a gate body; the lowest one that is not in order on so many lines is refused.
fn read_gates(gates: &[u8], lines: usize) -> Result<(), Refusal>
    ensures { answer_of result ≡ checked_each (gate_fits lines gates.now) (length gates.now / 8) Refusal.Gate }
{
    for i in 0..gates.len() / 8 {
        if let GateRead::Bad(at) = read_gate(gates, i, lines) {
            return Err(Refusal::Gate(at as u64));
        }
    }
    Ok(())
}

// Reads a circuit file: how many inputs, outputs, work lines and gates it has, or the first cause
// to refuse it.
pub fn read_circuit(file: &[u8]) -> Result<CircuitHead, Refusal>
    ensures { answer_of result ≡ map_answer head_of (read_circuit file.now) }
{
    let head = read_head(file)?;
    read_gates(gate_body(file), line_count(head))?;
    Ok(head)
}

// Reads a circuit file that comes with a byte, 0 or 1, for each of its lines.
pub fn read_with_lines(file: &[u8], lines: &[u8]) -> Result<CircuitHead, Refusal>
    ensures { answer_of result ≡ map_answer head_of (read_with_lines file.now lines.now) }
{
    let head = read_circuit(file)?;
    if !bits_fit(lines, line_count(head)) {
        return Err(Refusal::LineBytes);
    }
    Ok(head)
}
