// Gates of a gate body, stored.
ghost use Rattle.std.specs.Prelude.{◌≡◌, ◌+◌, ◌≤◌, length};
ghost use Rattle.std.proofs.lemmas.List.Edits.{sets};
ghost use Rattle.gate_bytes.specs.GateBytes.{gate_bytes};

use crate::fields::Fields;
use gate::gates::Gate;

// Stores a gate, the first byte at index at.
pub fn put_gate(area: &mut [u8], at: usize, gate: Gate)
    requires { at + 8 ≤ length area.old }
    ensures { area.new ≡ sets area.old at (gate_bytes gate) }
{
    Fields::from(gate).put(area, at);
}
