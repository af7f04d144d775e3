// What one gate does to the lines.
ghost use Rattle.std.specs.Prelude.{◌≡◌, length};
ghost use Rattle.wire.specs.Bits.{Bits};
ghost use Rattle.gate.specs.Gates.{WellFormed};
ghost use Rattle.gate.specs.Running.{addend, step};

use crate::gates::Gate;
use wire::bits::{and_bits, xor_bits};

impl Gate {
    // What the gate XORs into its target.
    fn addend(self, lines: &[u8]) -> u8
        requires { WellFormed (length lines.now) self × Bits lines.now }
        ensures { result ≡ addend self lines.now }
    {
        match self {
            Gate::Not { .. } => 1,
            Gate::Cnot { control, .. } => lines[control as usize],
            Gate::Toffoli { first, second, .. } => {
                and_bits(lines[first as usize], lines[second as usize])
            }
        }
    }

    // The gate on the lines.
    pub fn apply(self, lines: &mut [u8])
        requires { WellFormed (length lines.old) self × Bits lines.old }
        ensures { lines.new ≡ step self lines.old }
    {
        let at = self.target() as usize;
        let addend = self.addend(lines);
        lines[at] = xor_bits(lines[at], addend);
    }
}
