// The fields of a gate in a circuit file.
ghost use Rattle.std.specs.Prelude.{◌≡◌, ◌+◌, ◌*◌, ◌≤◌, length};
ghost use Rattle.std.proofs.lemmas.List.Edits.{sets};
ghost use Rattle.gate_bytes.specs.GateBytes.{gate_of, fields_fit, gate_bytes};
ghost use Rattle.gate_bytes.specs.Steps.{fields_at, bytes_of};

use gate::gates::Gate;
use wire::numbers::{get16, put16};

// A gate's eight bytes: kind, a zero byte, control, second control, target. The kind is the
// format's number and no enum: a gate is made of any fields, before they are tested or without a
// test, so that gate_at is total, and of an enum a number that is no kind would have no case.
#[derive(Clone, Copy)]
pub struct Fields {
    kind: u8,
    blank: u8,
    first: u16,
    second: u16,
    target: u16,
}

impl Fields {
    // Those of gate i of a gate body.
    pub(crate) fn at(body: &[u8], i: usize) -> Fields
        requires { 8 * (i + 1) ≤ length body.now }
        ensures { result ≡ fields_at body.now i }
    {
        let at = 8 * i;
        Fields {
            kind: body[at],
            blank: body[at + 1],
            first: get16(body, at + 2),
            second: get16(body, at + 4),
            target: get16(body, at + 6),
        }
    }

    // Whether kind and zero byte are right, and the controls that the kind does not use are zero.
    pub(crate) fn fit(self) -> bool
        ensures { result ≡ fields_fit self.kind self.blank self.first self.second }
    {
        let controls = match self.kind {
            1 => (self.first == 0) & (self.second == 0),
            2 => self.second == 0,
            kind => kind == 3,
        };
        (self.blank == 0) & controls
    }

    // The gate. A kind that is not 1, 2 or 3 does not come here: cause 12 refuses it.
    pub(crate) fn gate(self) -> Gate
        ensures { result ≡ gate_of self.kind self.first self.second self.target }
    {
        let target = self.target;
        match self.kind {
            1 => Gate::Not { target },
            2 => Gate::Cnot {
                control: self.first,
                target,
            },
            _ => Gate::Toffoli {
                first: self.first,
                second: self.second,
                target,
            },
        }
    }

    // Stores them, the first byte at index at.
    pub(crate) fn put(self, area: &mut [u8], at: usize)
        requires { at + 8 ≤ length area.old }
        ensures { area.new ≡ sets area.old at (bytes_of self) }
    {
        area[at] = self.kind;
        area[at + 1] = self.blank;
        put16(area, at + 2, self.first);
        put16(area, at + 4, self.second);
        put16(area, at + 6, self.target);
    }
}

// A control that the gate does not have is 0.
impl From<Gate> for Fields {
    fn from(gate: Gate) -> Fields
        ensures { bytes_of result ≡ gate_bytes gate }
    {
        let (kind, first, second, target) = match gate {
            Gate::Not { target } => (1, 0, 0, target),
            Gate::Cnot { control, target } => (2, control, 0, target),
            Gate::Toffoli {
                first,
                second,
                target,
            } => (3, first, second, target),
        };
        Fields {
            kind,
            blank: 0,
            first,
            second,
            target,
        }
    }
}
