// Gates of a gate body, read.
ghost use Rattle.std.specs.Prelude.{◌≡◌, ◌+◌, ◌*◌, ◌≤◌, length};
ghost use Rattle.gate.specs.Gates.{target};
ghost use Rattle.gate_bytes.specs.GateBytes.{gate_at};
ghost use Rattle.gate_bytes.specs.Steps.{read_gate, gate_read};

use crate::fields::Fields;
use gate::gates::Gate;
use wire::numbers::get16;

// What reading a gate finds: the gate, or the index of a gate that is not in order. An enum of its
// own, as 01 names it.
#[derive(Clone, Copy, Debug, PartialEq, Eq)]
pub enum GateRead {
    Good(Gate),
    Bad(usize),
}

// Gate i of a gate body.
pub fn gate_at(body: &[u8], i: usize) -> Gate
    requires { 8 * (i + 1) ≤ length body.now }
    ensures { result ≡ gate_at body.now i }
{
    Fields::at(body, i).gate()
}

// The target of gate i of a gate body; the kind need not be looked at.
pub fn target_at(body: &[u8], i: usize) -> u16
    requires { 8 * (i + 1) ≤ length body.now }
    ensures { result ≡ target (gate_at body.now i) }
{
    get16(body, 8 * i + 6)
}

// Gate i of a gate body, or its index where it is not in order, with so many lines.
pub fn read_gate(body: &[u8], i: usize, lines: usize) -> GateRead
    requires { 8 * (i + 1) ≤ length body.now }
    ensures { gate_read result ≡ read_gate lines body.now i }
{
    let fields = Fields::at(body, i);
    let fit = fields.fit();
    let gate = fields.gate();
    // The fields come first, and both tests are made: so they share one branch on the kind.
    if fit & gate.is_well_formed(lines) {
        GateRead::Good(gate)
    } else {
        GateRead::Bad(i)
    }
}
