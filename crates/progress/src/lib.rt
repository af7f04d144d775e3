// The gate of an AND, appended to a circuit's gates. What building a tree appends is said in
// specs/.
#![tactic(auto)]

ghost use Rattle.std.specs.Prelude.{◌∷◌, [], ◌+◌, ◌≤◌, length};
ghost use Rattle.circuit.specs.Format.{file_length};
ghost use Rattle.construction.specs.Construction.{and_gate};
ghost use Rattle.appending.specs.Appending.{Appended};

use appending::writer::GateWriter;
use gate::gates::Gate;

// Appends the gate of an AND: a CNOT where both controls are one line, else a Toffoli, the lower
// one first. Each is appended by itself: a gate that may be either would go through memory.
pub fn append_and(writer: &mut GateWriter<'_>, a: u16, b: u16, target: u16)
    requires { file_length (writer.old.count + 1) ≤ length writer.old.area.now }
    ensures { Appended (and_gate a b target ∷ []) writer.old writer.new }
{
    if a == b {
        writer.append(Gate::Cnot { control: a, target });
    } else if a < b {
        writer.append(Gate::Toffoli {
            first: a,
            second: b,
            target,
        });
    } else {
        writer.append(Gate::Toffoli {
            first: b,
            second: a,
            target,
        });
    }
}
