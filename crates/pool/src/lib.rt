// The pool of work lines, as the code has it: every line from the lowest free one on is free.
#![tactic(auto)]

ghost use Rattle.std.specs.Prelude.{◌≤◌, ◌<◌};
ghost use Rattle.pool.specs.LinePools.{line_numbers, Takes, Releases};

// How many numbers a line can have: it is written in 16 bits.
pub const LINE_NUMBERS: usize = 65536;

// The lowest free line. The work lines before it are in use. Document 01 names this form: a pool by
// value, whose methods hand it back.
#[derive(Clone, Copy)]
pub struct LinePool {
    pub free: usize,
}

impl LinePool {
    // Takes the lowest free line.
    pub fn take(self) -> LinePool
        requires { self.free < line_numbers }
        ensures { Takes self.free result.free }
    {
        LinePool {
            free: self.free + 1,
        }
    }

    // Frees the lines that were taken since this one was the lowest free one.
    pub fn release(self, line: usize) -> LinePool
        requires { line ≤ self.free }
        ensures { Releases line self.free result.free }
    {
        LinePool { free: line }
    }
}
