// The gates of a circuit: each is one of three things.
ghost use Rattle.std.specs.Prelude.{◌≡◌};
ghost use Rattle.gate.specs.Gates.{target, well_formed};

// A gate with its lines.
#[derive(Clone, Copy, Debug, PartialEq, Eq)]
pub enum Gate {
    Not {
        target: u16,
    },
    Cnot {
        control: u16,
        target: u16,
    },
    Toffoli {
        first: u16,
        second: u16,
        target: u16,
    },
}

impl Gate {
    // The line that the gate changes.
    pub fn target(self) -> u16
        ensures { result ≡ target self }
    {
        match self {
            Gate::Not { target } => target,
            Gate::Cnot { target, .. } => target,
            Gate::Toffoli { target, .. } => target,
        }
    }

    // Whether the gate's lines are below the number of lines and all different, a Toffoli's lower
    // control first. The tests are cheap: `&` makes them all, without a branch for each.
    pub fn is_well_formed(self, lines: usize) -> bool
        ensures { result ≡ well_formed lines self }
    {
        match self {
            Gate::Not { target } => (target as usize) < lines,
            Gate::Cnot { control, target } => {
                let below = ((control as usize) < lines) & ((target as usize) < lines);
                below & (control != target)
            }
            Gate::Toffoli {
                first,
                second,
                target,
            } => {
                // The first control is below the second, and with it below the number of lines.
                let below = ((second as usize) < lines) & ((target as usize) < lines);
                let apart = (first != target) & (second != target);
                below & (first < second) & apart
            }
        }
    }
}
