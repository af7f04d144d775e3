// The gates that stand in a circuit area.
ghost use Rattle.std.specs.Prelude.{◌≡◌, ◌≤◌, length};
ghost use Rattle.circuit.specs.Format.{file_length};
ghost use Rattle.areas.specs.AreaGates.{body_in};

use circuit::layout::{FIRST_GATE, file_length};

// The first gates of an area, so many, as a gate body.
pub fn body_in(area: &[u8], gates: usize) -> &[u8]
    requires { file_length gates ≤ length area.now }
    ensures { result.now ≡ body_in area.now gates }
{
    let end = file_length(gates);
    &area[FIRST_GATE..end]
}
