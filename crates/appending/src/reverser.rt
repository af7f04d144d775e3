// Undoing gates that stand in a circuit area, in the same area: below the construction, which may
// undo gates in its middle too.
ghost use Rattle.std.specs.Prelude.{◌≡◌, ◌∷◌, [], ◌+◌, ◌-◌, ◌≤◌, ◌<◌, length, eqb};
ghost use Rattle.gate.specs.Running.{without, uncompute};
ghost use Rattle.areas.specs.AreaGates.{put_gates, gate_in, gates_from};
ghost use Rattle.circuit.specs.Format.{file_length};
ghost use Rattle.appending.specs.Appending.{Appended};
ghost use Rattle.appending.specs.Reversing.{InOrder, Repeatable, Reversible};

use crate::writer::GateWriter;
use areas::gates::body_in;
use circuit::layout::file_length;
use gate_bytes::reader::target_at;

// Stores gate i once more, as gate k. Its bytes are copied as they stand: taking the gate apart
// would ask for its kind.
fn copy_gate(area: &mut [u8], i: usize, k: usize)
    requires { InOrder area.old i × (i < k) × (file_length (k + 1) ≤ length area.old) }
    ensures { area.new ≡ put_gates area.old k (gate_in area.old i ∷ []) }
{
    let from = file_length(i);
    area.copy_within(from..from + 8, file_length(k));
}

impl GateWriter<'_> {
    // Appends gate i once more, unless it changes the line left out.
    fn append_again(&mut self, i: usize, excluded: u16)
        requires { Repeatable self.old.area.now i self.old.count excluded }
        ensures { Appended (without (eqb excluded) (gate_in self.old.area.now i ∷ [])) self.old self.new }
    {
        let count = self.count;
        // Lent once, to be read and written: of a field lent to be read the check forgets the
        // bytes.
        let area = &mut *self.area;
        if excluded != target_at(body_in(area, count), i) {
            copy_gate(area, i, count);
            self.count += 1;
        }
    }

    // Appends the gates from gate `from` up to gate `to` once more, last to first and without those
    // that change the line left out.
    pub fn append_reversed(&mut self, from: usize, to: usize, excluded: u16)
        requires { Reversible self.old.area.now from to self.old.count excluded }
        ensures { Appended (uncompute (eqb excluded) (gates_from self.old.area.now from (to - from))) self.old self.new }
    {
        for i in (from..to).rev() {
            self.append_again(i, excluded);
        }
    }
}
