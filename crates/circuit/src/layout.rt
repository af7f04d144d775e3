// Where the parts of a circuit file lie, and how long it is.
ghost use Rattle.std.specs.Prelude.{◌≡◌, ◌&&◌, ◌^◌, ◌<◌, leb};
ghost use Rattle.wire.specs.Limits.{most_gates};
ghost use Rattle.circuit.specs.Format.{file_length};

use wire::limits::MOST_GATES;

// How many bytes the head takes.
pub const HEAD_LENGTH: usize = 6;

// Where the first gate starts: behind a table of two entries and the head.
pub const FIRST_GATE: usize = 28;

// How many bytes the longest circuit file takes.
pub const LONGEST_FILE: usize = FIRST_GATE + 8 * MOST_GATES;

// How many bytes a file of so many gates takes, which is where its next gate would start.
pub fn file_length(gates: usize) -> usize
    requires { file_length gates < 2 ^ 64 }
    ensures { result ≡ file_length gates }
{
    FIRST_GATE + 8 * gates
}

// Whether a file may have so many gates, and an area of so many bytes has room for it.
pub fn has_room(gates: usize, room: usize) -> bool
    ensures { result ≡ leb gates most_gates && leb (file_length gates) room }
{
    if MOST_GATES < gates {
        return false;
    }
    file_length(gates) <= room
}
