// The service undo: the gates of a circuit file, reversed, without those whose target is chosen.
#![tactic(auto)]

ghost use Rattle.std.specs.Prelude.{◌≡◌, ℕ, ◌∷◌, [], ◌+◌, ◌/◌, ◌<◌, ◌≤◌, length};
ghost use Rattle.refusal.specs.Answers.{answer_of, map_answer};
ghost use Rattle.gate.specs.Gates.{target};
ghost use Rattle.gate_bytes.specs.GateBytes.{gate_at};
ghost use Rattle.gate.specs.Running.{without, uncompute};
ghost use Rattle.circuit.specs.Circuits.{gates_in, head_of};
ghost use Rattle.circuit.specs.Format.{file_length, circuit_file};
ghost use Rattle.wire.specs.Areas.{area_after};
ghost use Rattle.areas.specs.AreaGates.{put_gates};
ghost use Rattle.appending.specs.Appending.{Appended};
ghost use Rattle.undo.specs.UndoCircuit.{chosen, undo_file};

use appending::writer::GateWriter;
use areas::writer::write_head;
use circuit::layout::file_length;
use circuit::reader::{CircuitHead, gate_body, read_with_lines};
use gate_bytes::reader::{gate_at, target_at};
use refusal::causes::Refusal;

// What is undone: a gate body, and a choice byte for each line. Gates whose target is chosen are
// left out.
#[derive(Clone, Copy)]
struct Undoing<'a> {
    gates: &'a [u8],
    choices: &'a [u8],
    ghost in_range: { (i : ℕ) → i < length gates.now / 8 → target (gate_at gates.now i) < length choices.now },
}

impl Undoing<'_> {
    // Whether gate i is left out.
    fn left_out(&self, i: usize) -> bool
        requires { i < length self.now.gates.now / 8 }
        ensures { result ≡ chosen self.now.choices.now (target (gate_at self.now.gates.now i)) }
    {
        self.choices[target_at(self.gates, i) as usize] == 1
    }

    // How many gates remain.
    fn count_kept(&self) -> usize
        ensures { result ≡ length (without (chosen self.now.choices.now) (gates_in self.now.gates.now)) }
    {
        let mut kept = 0;
        for i in 0..self.gates.len() / 8 {
            if !self.left_out(i) {
                kept += 1;
            }
        }
        kept
    }

    // Appends gate i, unless it is left out.
    fn append_kept(&self, i: usize, writer: &mut GateWriter)
        requires in_range { i < length self.now.gates.now / 8 }
        requires area_room { file_length (writer.old.count + length (without (chosen self.now.choices.now) (gate_at self.now.gates.now i ∷ []))) ≤ length writer.old.area.now }
        ensures { Appended (without (chosen self.now.choices.now) (gate_at self.now.gates.now i ∷ [])) writer.old writer.new }
    {
        if !self.left_out(i) {
            writer.append(gate_at(self.gates, i));
        }
    }

    // Stores the gates that remain, last to first.
    fn write(&self, area: &mut [u8])
        requires { file_length (length (uncompute (chosen self.now.choices.now) (gates_in self.now.gates.now))) ≤ length area.old }
        ensures { area.new ≡ put_gates area.old 0 (uncompute (chosen self.now.choices.now) (gates_in self.now.gates.now)) }
    {
        let mut writer = GateWriter { area, count: 0 };
        for i in (0..self.gates.len() / 8).rev() {
            self.append_kept(i, &mut writer);
        }
    }
}

// Writes the circuit file that undoes a circuit file, except on the chosen lines. The area behind
// the file is as it was; where there is no room for the file the whole area is zero, and on every
// other refusal it is as it was.
pub fn undo(file: &[u8], choices: &[u8], area: &mut [u8]) -> Result<CircuitHead, Refusal>
    ensures result_value { answer_of result ≡ map_answer head_of (undo_file file.now choices.now (length area.old)) }
    ensures area_after { area.new ≡ area_after (map_answer circuit_file (undo_file file.now choices.now (length area.old))) area.old }
{
    let head = read_with_lines(file, choices)?;
    let undoing = Undoing {
        gates: gate_body(file),
        choices,
    };
    let kept = undoing.count_kept();
    if area.len() < file_length(kept) {
        area.fill(0);
        return Err(Refusal::Room(kept as u64));
    }
    let written = CircuitHead {
        gates: kept,
        ..head
    };
    write_head(area, written);
    undoing.write(area);
    Ok(written)
}
