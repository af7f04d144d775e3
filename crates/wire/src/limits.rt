// The limits of files and programs, one name each.

// The most inputs that a file may have.
pub const MOST_INPUTS: u16 = 64;

// The most outputs.
pub const MOST_OUTPUTS: u16 = 64;

// The most work lines, of a circuit and of a grant.
pub const MOST_WORK: u64 = 1024;

// The most nodes of a program.
pub const MOST_NODES: usize = 4096;

// The most gates of a circuit.
pub const MOST_GATES: usize = 8000;

// The largest unfolded size of an output.
pub const MOST_SIZE: u16 = 16384;

// The largest number of gates that the place of cause 11 shows as it is.
pub const MOST_COUNTED: usize = 3000000;

// The largest number that a quote shows as it is.
pub const MOST_QUOTED: u64 = 1000000;

// The most bytes of a text.
pub const MOST_TEXT: usize = 4096;

// The most brackets and ! that may be open in a text together.
pub const MOST_OPEN: usize = 64;
