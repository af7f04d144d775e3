// An entry of the count list: the numbers of a node's tree, made of those of its operands. Each
// count is shown as 1,000,001 where it is above 1,000,000.
#![tactic(auto)]

ghost use Rattle.std.specs.Prelude.{◌≡◌, cond, ◌+◌, ◌*◌, ◌≤◌, max, Option, None};
ghost use Rattle.wire.specs.Limits.{most_quoted};
ghost use Rattle.wire.specs.Shown.{shown};
ghost use Rattle.node.specs.Exprs.{Expr, NOT, XOR, AND};
ghost use Rattle.construction.specs.Steps.{and_count, cleaning_count};
ghost use Rattle.entry.specs.Entries.{input_in, leaf_entry, operand_from, and_tally, entry_of};
ghost use Rattle.entry.specs.Entries.{SmallTally, SmallEntry, SmallOperand};

use wire::limits::MOST_QUOTED;

// The gates that build a tree, or the Toffolis among them, and how many of these a share undoes:
// those that are not on the tree's own line. Both grow with the operands' numbers, so that sums of
// shown numbers show the sum; a share has as many as both together.
#[derive(Clone, Copy, Default)]
pub struct Tally {
    pub built: u64,
    pub undone: u64,
}

// What is counted of a tree: the gates and the Toffolis among them, the work lines that it still
// holds when it is built, and the most that it holds together, which is more where a marked AND
// freed some. input is the number of the input that the tree is, where it is one: an AND has to
// know that of its operands.
#[derive(Clone, Copy)]
pub struct Entry {
    pub gates: Tally,
    pub toffolis: Tally,
    pub held: u64,
    pub lines: u64,
    pub input: Option<u64>,
}

// What an operand adds to its AND: the gates that make it, the Toffolis among them, the lines that
// it still holds when it is made, and the most that it holds together.
#[derive(Clone, Copy, Default)]
struct OperandCounts {
    gates: u64,
    toffolis: u64,
    held: u64,
    lines: u64,
}

// A number as it is shown.
#[tactic(auto, unfolding(wire::specs::Shown::shown))]
pub fn capped(k: u64) -> u64
    ensures { result ≡ shown most_quoted k }
{
    k.min(MOST_QUOTED + 1)
}

// The most lines that two trees hold together: the second is built beside the lines that the first
// still holds.
fn most_lines(first: u64, held: u64, second: u64) -> u64
    requires { (held ≤ most_quoted + 2) × (second ≤ most_quoted + 2) }
    ensures { result ≡ shown most_quoted (max first (held + second)) }
{
    capped(first.max(held + second))
}

impl Tally {
    // The tally of NOT: one gate more on the same line, which counts c.
    fn negated(self, c: u64) -> Tally
        requires { (c ≤ 1) × SmallTally self }
        ensures { result ≡ record { built = shown most_quoted (c + self.built); undone = self.undone } }
    {
        Tally {
            built: capped(c + self.built),
            undone: self.undone,
        }
    }

    // The tally of XOR: both operands go to the same line.
    fn xor(self, y: Tally) -> Tally
        requires { SmallTally self × SmallTally y }
        ensures { result ≡ record { built = shown most_quoted (self.built + y.built); undone = shown most_quoted (self.undone + y.undone) } }
    {
        Tally {
            built: capped(self.built + y.built),
            undone: capped(self.undone + y.undone),
        }
    }

    // The tally of AND, where so many gates make its operands: all of these are undone, and so are
    // those that clean up. One gate more, which counts c, goes to the target.
    #[tactic(auto, using(crate::proofs::EntryLaws::cleaning_few))]
    fn and(marked: bool, c: u64, made: u64) -> Tally
        requires { (c ≤ 1) × (made ≤ 2 * (most_quoted + 1)) }
        ensures { result ≡ and_tally marked c made }
    {
        let undone = made + cleaning_count(marked, made);
        Tally {
            built: capped(c + undone),
            undone: capped(undone),
        }
    }
}

// How many gates clean up behind an AND, where so many made its operands: as many again where it is
// marked, else none.
#[tactic(auto, unfolding(construction::specs::Steps::cleaning_count))]
fn cleaning_count(marked: bool, made: u64) -> u64
    ensures { result ≡ cleaning_count marked made }
{
    if marked { made } else { 0 }
}

// How many lines an AND still holds, where its operands hold so many: none where it is marked.
fn still_held(marked: bool, held: u64) -> u64
    ensures { result ≡ cond marked 0 held }
{
    if marked { 0 } else { held }
}

// What the gate of an AND counts among the Toffolis, x and y being the inputs that its operands
// are: it is one, unless both are the same input, which gives a CNOT.
#[tactic(auto, using(crate::proofs::EntryLaws::toffolis_are))]
fn gate_toffolis(x: Option<u64>, y: Option<u64>) -> u64
    ensures { result ≡ and_count 0 (input_in x) (input_in y) }
{
    if x.is_some() && x == y {
        return 0;
    }
    1
}

impl Entry {
    // The entry of a constant or an input: it has one gate or none, which is no Toffoli and is not
    // undone, and takes no line.
    pub fn leaf(gates: u64, input: Option<u64>) -> Entry
        ensures { result ≡ leaf_entry gates input }
    {
        Entry {
            gates: Tally {
                built: gates,
                undone: 0,
            },
            toffolis: Tally::default(),
            held: 0,
            lines: 0,
            input,
        }
    }

    // The entry of NOT.
    pub fn negated(self) -> Entry
        requires { SmallEntry self }
        ensures counts { (a : Expr) → self ≡ entry_of a → result ≡ entry_of (NOT a) }
        ensures no_input { result.input ≡ None }
    {
        Entry {
            gates: self.gates.negated(1),
            toffolis: self.toffolis.negated(0),
            held: self.held,
            lines: self.lines,
            input: None,
        }
    }

    // The entry of XOR: the second operand is built beside the lines that the first holds.
    pub fn xor(self, y: Entry) -> Entry
        requires { SmallEntry self × SmallEntry y }
        ensures counts { (a b : Expr) → self ≡ entry_of a → y ≡ entry_of b → result ≡ entry_of (XOR a b) }
        ensures no_input { result.input ≡ None }
    {
        Entry {
            gates: self.gates.xor(y.gates),
            toffolis: self.toffolis.xor(y.toffolis),
            held: capped(self.held + y.held),
            lines: most_lines(self.lines, self.held, y.lines),
            input: None,
        }
    }

    // The entry of AND: the second operand is made beside the lines that the first holds.
    pub fn and(self, marked: bool, y: Entry) -> Entry
        requires { SmallEntry self × SmallEntry y }
        ensures counts { (a b : Expr) → self ≡ entry_of a → y ≡ entry_of b → result ≡ entry_of (AND marked a b) }
        ensures no_input { result.input ≡ None }
    {
        let first = self.as_operand();
        let second = y.as_operand();
        let held = still_held(marked, first.held + second.held);
        let toffolis = gate_toffolis(self.input, y.input);
        Entry {
            gates: Tally::and(marked, 1, first.gates + second.gates),
            toffolis: Tally::and(marked, toffolis, first.toffolis + second.toffolis),
            held: capped(held),
            lines: most_lines(first.lines, first.held, second.lines),
            input: None,
        }
    }

    // What an operand adds: nothing where it is an input, which is its own control; any other is
    // built on a line of its own.
    fn as_operand(self) -> OperandCounts
        requires { SmallEntry self }
        ensures { (result ≡ operand_from self) × SmallOperand result }
    {
        if self.input.is_some() {
            return OperandCounts::default();
        }
        OperandCounts {
            gates: self.gates.built,
            toffolis: self.toffolis.built,
            held: 1 + self.held,
            lines: 1 + self.lines,
        }
    }
}
