// The kinds of nodes, in the order of their numbers in a program file.
ghost use Rattle.std.specs.Prelude.{◌≡◌};
ghost use Rattle.node.specs.Kinds.{kind_number};

#[derive(Clone, Copy, Debug, PartialEq, Eq)]
pub enum Kind {
    Zero,
    One,
    Input,
    Not,
    Xor,
    And,
}

impl Kind {
    // The kind's number, its byte in a program file.
    pub fn number(self) -> u8
        ensures { result ≡ kind_number self }
    {
        self as u8
    }
}
