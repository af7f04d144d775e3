// Writing a circuit file into a lent area: the head with its table of contents, and single gates.
ghost use Rattle.std.specs.Prelude.{◌≡◌, ◌∷◌, [], ◌+◌, ◌≤◌, length};
ghost use Rattle.std.proofs.lemmas.List.Edits.{sets};
ghost use Rattle.circuit.specs.Circuits.{InRange};
ghost use Rattle.circuit.specs.Format.{opening_bytes, file_length};
ghost use Rattle.areas.specs.AreaGates.{put_gates};

use crate::table::{Body, write_contents};
use circuit::layout::{FIRST_GATE, HEAD_LENGTH, file_length};
use circuit::reader::CircuitHead;
use gate::gates::Gate;
use gate_bytes::writer::put_gate;
use wire::numbers::put16;

// Stores everything of a circuit file that stands before its first gate.
pub fn write_head(area: &mut [u8], head: CircuitHead)
    requires { InRange head × (file_length 0 ≤ length area.old) }
    ensures { area.new ≡ sets area.old 0 (opening_bytes head) }
{
    let bodies = [
        Body {
            tag: 17,
            length: HEAD_LENGTH as u32,
        },
        Body {
            tag: 18,
            length: 8 * (head.gates as u32),
        },
    ];
    write_contents(area, &bodies);
    let at = FIRST_GATE - HEAD_LENGTH;
    put16(area, at, head.inputs as u16);
    put16(area, at + 2, head.outputs as u16);
    put16(area, at + 4, head.work as u16);
}

// Stores gate k of a circuit file.
pub fn write_gate(area: &mut [u8], k: usize, gate: Gate)
    requires { file_length (k + 1) ≤ length area.old }
    ensures { area.new ≡ put_gates area.old k (gate ∷ []) }
{
    put_gate(area, file_length(k), gate);
}
