// How far counting the construction has come, in one number: the gates, the most work lines in use
// together, and the lines in use; and what each step of the construction adds to it. They are
// packed, as a struct behind `&mut` made counting large XORs 7 to 9 in a hundred slower.
#![tactic(auto)]

ghost use Rattle.std.specs.Prelude.{◌≡◌, ◌+◌, ◌*◌, ◌≤◌, ◌<◌, max};
ghost use Rattle.wire.specs.Limits.{most_size};
ghost use Rattle.construction.specs.Counting.{gates_shown};
ghost use Rattle.pool.specs.LinePools.{line_numbers};
ghost use Rattle.counter.specs.Counter.{one_gate, packed_counts, gates_in, most_in, used_in, most_passed, once_more, OperandsMade};

use pool::{LINE_NUMBERS, LinePool};
use wire::limits::MOST_COUNTED;

// One gate, as it stands there.
pub const ONE_GATE: usize = 4294967296;

// Three numbers in one.
fn pack_counts(gates: usize, most: usize, used: usize) -> usize
    requires { (gates ≤ most_passed) × (most < line_numbers) × (used < line_numbers) }
    ensures { result ≡ packed_counts gates most used }
{
    gates * ONE_GATE + most * LINE_NUMBERS + used
}

// Counts a gate on a tree's own line.
pub fn count_own(state: usize, own: usize) -> usize
    requires { (gates_in state ≤ most_passed) × (own ≤ 2) }
    ensures { result ≡ state + own * one_gate }
{
    state + own * ONE_GATE
}

// Takes the lowest free line; the most in use together may be one more then. The lines in use are
// the first ones, so that counted from 0 the lowest free line is their number.
pub fn take_line(state: usize) -> usize
    requires { (gates_in state ≤ most_passed) × (most_in state ≤ most_size) × (used_in state < most_size) }
    ensures { result ≡ packed_counts (gates_in state) (max (most_in state) (used_in state + 1)) (used_in state + 1) }
{
    let pool = LinePool {
        free: state % LINE_NUMBERS,
    };
    let used = pool.take().free;
    let most = state / LINE_NUMBERS % LINE_NUMBERS;
    pack_counts(state / ONE_GATE, most.max(used), used)
}

// The gates with those since `from` once more. A number above the largest that is shown stays as it
// is: it can only grow, and is shown as that already.
fn once_more(from: usize, gates: usize) -> usize
    requires { from ≤ gates }
    ensures { result ≡ once_more from gates }
{
    if MOST_COUNTED < gates {
        return gates;
    }
    gates + (gates - from)
}

// Counts what cleans up behind a marked AND: what made its operands since `before` is undone, and
// the lines in use are those that were before it.
pub fn count_cleaning(before: usize, made: usize) -> usize
    requires { OperandsMade before made }
    ensures { result ≡ packed_counts (once_more (gates_in before) (gates_in made)) (most_in made) (used_in before) }
{
    let gates = once_more(before / ONE_GATE, made / ONE_GATE);
    let pool = LinePool {
        free: made % LINE_NUMBERS,
    };
    let used = pool.release(before % LINE_NUMBERS).free;
    pack_counts(gates, made / LINE_NUMBERS % LINE_NUMBERS, used)
}

// Every line is free again.
pub fn free_lines(state: usize) -> usize
    requires { gates_in state ≤ most_passed }
    ensures { result ≡ packed_counts (gates_in state) (most_in state) 0 }
{
    let pool = LinePool {
        free: state % LINE_NUMBERS,
    };
    let used = pool.release(0).free;
    pack_counts(state / ONE_GATE, state / LINE_NUMBERS % LINE_NUMBERS, used)
}

// A number of gates as it is shown.
pub fn shown_gates(gates: usize) -> usize
    ensures { result ≡ gates_shown gates }
{
    gates.min(MOST_COUNTED + 1)
}
