// Bits kept in bytes: the inputs of a program, the lines of a circuit.
ghost use Rattle.std.specs.Prelude.{◌≡◌, ◌*◌, ◌<◌};
ghost use Rattle.wire.specs.Bits.{xor_bit, bits_fit};

// The XOR of two bits.
pub fn xor_bits(a: u8, b: u8) -> u8
    requires { (a < 2) × (b < 2) }
    ensures { result ≡ xor_bit a b }
{
    a ^ b
}

// The AND of two bits.
pub fn and_bits(a: u8, b: u8) -> u8
    requires { (a < 2) × (b < 2) }
    ensures { result ≡ a * b }
{
    a & b
}

// Whether there are count bytes and each is 0 or 1.
pub fn bits_fit(s: &[u8], count: usize) -> bool
    ensures { result ≡ bits_fit count s.now }
{
    s.len() == count && s.iter().all(|b| *b <= 1)
}
