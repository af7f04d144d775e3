// The writer of a circuit's gates into a lent area: it appends gates behind those that stand there.
ghost use Rattle.std.specs.Prelude.{◌∷◌, [], ◌+◌, ◌≤◌, length};
ghost use Rattle.circuit.specs.Format.{file_length};
ghost use Rattle.appending.specs.Appending.{Appended};

use areas::writer::write_gate;
use gate::gates::Gate;

// The lent circuit area, and how many gates are stored in it. Document 01 names this form: a small
// writer that holds the area and the count.
#[derive(Drop)]
pub struct GateWriter<'a> {
    pub area: &'a mut [u8],
    pub count: usize,
}

impl GateWriter<'_> {
    // Stores a gate behind those that are there, and counts it.
    pub fn append(&mut self, gate: Gate)
        requires { file_length (self.old.count + 1) ≤ length self.old.area.now }
        ensures { Appended (gate ∷ []) self.old self.new }
    {
        write_gate(self.area, self.count, gate);
        self.count += 1;
    }
}
