// Unsigned numbers of 16 and 32 bits in slices, low byte first. Each width has its own two functions: a
// trait of both would have these bodies too, and ghost members for what the contracts name.
ghost use Rattle.std.specs.Prelude.{◌≡◌, ◌+◌, ◌≤◌, length};
ghost use Rattle.std.proofs.lemmas.List.Edits.{sets};
ghost use Rattle.wire.specs.Bytes.{at16, at32, bytes16, bytes32};

// The 16-bit number whose first byte has index at.
pub fn get16(s: &[u8], at: usize) -> u16
    requires { at + 2 ≤ length s.now }
    ensures { result ≡ at16 s.now at }
{
    u16::from_le_bytes([s[at], s[at + 1]])
}

// The 32-bit number whose first byte has index at.
pub fn get32(s: &[u8], at: usize) -> u32
    requires { at + 4 ≤ length s.now }
    ensures { result ≡ at32 s.now at }
{
    u32::from_le_bytes([s[at], s[at + 1], s[at + 2], s[at + 3]])
}

// Stores a 16-bit number from index at on.
pub fn put16(s: &mut [u8], at: usize, v: u16)
    requires { at + 2 ≤ length s.old }
    ensures { s.new ≡ sets s.old at (bytes16 v) }
{
    s[at..at + 2].copy_from_slice(&v.to_le_bytes());
}

// Stores a 32-bit number from index at on.
pub fn put32(s: &mut [u8], at: usize, v: u32)
    requires { at + 4 ≤ length s.old }
    ensures { s.new ≡ sets s.old at (bytes32 v) }
{
    s[at..at + 4].copy_from_slice(&v.to_le_bytes());
}
