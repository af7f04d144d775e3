// The causes for which a service refuses, one case each, in the order of their numbers. A cause
// holds its place where it has one.
ghost use Rattle.std.specs.Prelude.{◌≡◌};
ghost use Rattle.refusal.specs.Answers.{number_of, place_of};

use std::error::Error;
use std::fmt;

#[derive(Clone, Copy, Debug, PartialEq, Eq)]
pub enum Refusal {
    // The number of entries is missing or wrong, or the table of contents is cut short.
    Table,
    // An entry has the wrong tag or start, or the last body does not end with the file.
    Contents,
    // A body does not have the length that its layout asks for.
    BodyLength,
    // The number of inputs, outputs or work lines is out of range.
    Range,
    // The node with this index is not in order; of a text, the input that it would be is not there.
    Node(u64),
    // The output with this index names no node.
    Output(u64),
    // A lent list has fewer entries than there are nodes, or the answer list than there are
    // outputs.
    ListLength,
    // The output with this index has an unfolded size over the limit.
    Size(u64),
    // More work lines are granted than a circuit can have.
    Grant,
    // So many work lines are needed, more than granted.
    WorkLines(u64),
    // So many gates, or nodes, are needed: too many, or more than the area has room for.
    Room(u64),
    // The gate with this index is not in order.
    Gate(u64),
    // There is not one byte, 0 or 1, for each line.
    LineBytes,
    // There is not one byte, 0 or 1, or not one word, for each input.
    InputBytes,
    // No output has this number.
    OutputNumber,
    // The text is outside the language; this many bytes are the most that some text of it begins
    // with.
    Text(u64),
    // The text is too long.
    TextLength,
    // The byte with this index opens a bracket or a ! more than may be open together.
    Depth(u64),
}

impl Refusal {
    // The cause's number.
    pub fn number(self) -> u64
        ensures { result ≡ number_of self }
    {
        match self {
            Refusal::Table => 1,
            Refusal::Contents => 2,
            Refusal::BodyLength => 3,
            Refusal::Range => 4,
            Refusal::Node(_) => 5,
            Refusal::Output(_) => 6,
            Refusal::ListLength => 7,
            Refusal::Size(_) => 8,
            Refusal::Grant => 9,
            Refusal::WorkLines(_) => 10,
            Refusal::Room(_) => 11,
            Refusal::Gate(_) => 12,
            Refusal::LineBytes => 13,
            Refusal::InputBytes => 14,
            Refusal::OutputNumber => 15,
            Refusal::Text(_) => 16,
            Refusal::TextLength => 17,
            Refusal::Depth(_) => 18,
        }
    }

    // The refusal's place, 0 where the cause has none.
    pub fn place(self) -> u64
        ensures { result ≡ place_of self }
    {
        match self {
            Refusal::Table => 0,
            Refusal::Contents => 0,
            Refusal::BodyLength => 0,
            Refusal::Range => 0,
            Refusal::Node(i) => i,
            Refusal::Output(k) => k,
            Refusal::ListLength => 0,
            Refusal::Size(k) => k,
            Refusal::Grant => 0,
            Refusal::WorkLines(w) => w,
            Refusal::Room(g) => g,
            Refusal::Gate(i) => i,
            Refusal::LineBytes => 0,
            Refusal::InputBytes => 0,
            Refusal::OutputNumber => 0,
            Refusal::Text(p) => p,
            Refusal::TextLength => 0,
            Refusal::Depth(p) => p,
        }
    }
}

// The number and the place, as a listing has them.
impl fmt::Display for Refusal {
    fn fmt<W: fmt::Write>(&self, f: &mut fmt::Formatter<W>) -> fmt::Result {
        write!(f, "refused {} {}", self.number(), self.place())
    }
}

impl Error for Refusal {}
