// Running the gates of a gate body on lines, in one order or the other. Each order has its own
// loop: one over any iterator of indices would be longer in its contract than both loops are.
ghost use Rattle.std.specs.Prelude.{◌≡◌};
ghost use Rattle.wire.specs.Bits.{Bits};
ghost use Rattle.gate.specs.Gates.{Fits};
ghost use Rattle.gate.specs.Running.{run, run_back};
ghost use Rattle.circuit.specs.Circuits.{gates_in};

use gate_bytes::reader::gate_at;

// Runs the gates of a gate body, first to last.
pub fn apply_all(gates: &[u8], lines: &mut [u8])
    requires { Fits (gates_in gates.now) lines.old × Bits lines.old }
    ensures { lines.new ≡ run (gates_in gates.now) lines.old }
{
    for i in 0..gates.len() / 8 {
        gate_at(gates, i).apply(lines);
    }
}

// Runs the gates of a gate body, last to first.
pub fn apply_all_back(gates: &[u8], lines: &mut [u8])
    requires { Fits (gates_in gates.now) lines.old × Bits lines.old }
    ensures { lines.new ≡ run_back (gates_in gates.now) lines.old }
{
    for i in (0..gates.len() / 8).rev() {
        gate_at(gates, i).apply(lines);
    }
}
