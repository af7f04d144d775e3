// The lines of a listing, put into a lent buffer.
#![tactic(auto)]

ghost use Rattle.circuit.specs.Circuits.{gates_in};
ghost use Rattle.text.specs.Listings.{gate_line, gate_lines, first_line};
ghost use Rattle.line.specs.Putting.{Put, TextFits};

use circuit::reader::CircuitHead;
use gate::gates::Gate;
use gate_bytes::reader::gate_at;
use line::LineWriter;

// Puts the line of a gate: its letter, its controls and its target.
#[tactic(auto, unfolding(crate::specs::Listings::gate_line))]
fn put_gate_line(writer: &mut LineWriter, gate: Gate)
    requires { TextFits (gate_line gate) writer.old }
    ensures { Put (gate_line gate) writer.old writer.new }
{
    match gate {
        Gate::Not { target } => writer.put_line(b"N", &[target as u64]),
        Gate::Cnot { control, target } => writer.put_line(b"C", &[control as u64, target as u64]),
        Gate::Toffoli {
            first,
            second,
            target,
        } => writer.put_line(b"T", &[first as u64, second as u64, target as u64]),
    }
}

// Puts a line for each gate of a gate body.
pub fn put_gate_lines(writer: &mut LineWriter, gates: &[u8])
    requires { TextFits (gate_lines (gates_in gates.now)) writer.old }
    ensures { Put (gate_lines (gates_in gates.now)) writer.old writer.new }
{
    for k in 0..gates.len() / 8 {
        put_gate_line(writer, gate_at(gates, k));
    }
}

// Puts the first line: how many inputs, outputs, work lines and gates there are.
pub fn put_head(writer: &mut LineWriter, head: CircuitHead)
    requires { TextFits (first_line head) writer.old }
    ensures { Put (first_line head) writer.old writer.new }
{
    writer.put_word(b"lines");
    writer.put_numbers(&[head.inputs as u64, head.outputs as u64, head.work as u64]);
    writer.put_line(b" gates", &[head.gates as u64]);
}
