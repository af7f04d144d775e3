// The answers: three numbers an output, from the entry of its node.
ghost use Rattle.std.specs.Prelude.{◌≡◌, ◌+◌, ◌*◌, ◌/◌, ◌≤◌, length, drop};
ghost use mathlib.Core.List.{◌++◌, flat_map};
ghost use Rattle.entry.specs.Entries.{SmallEntry};
ghost use Rattle.quote.specs.Steps.{entry_quote, named_entries, Quotable};

use entries::get_entry;
use entry::{Entry, capped};
use program::reader::output_at;

// The answer of an entry: a share has what builds its tree, and what of this is undone.
#[tactic(auto, unfolding(crate::specs::Steps::entry_quote))]
fn entry_quote(e: Entry) -> [u64; 3]
    requires { SmallEntry e }
    ensures { result ≡ entry_quote e }
{
    [
        capped(e.gates.built + e.gates.undone),
        capped(e.toffolis.built + e.toffolis.undone),
        e.lines,
    ]
}

// Stores the answer of each output of an output body, in their order.
pub fn write_answers(outputs: &[u8], counts: &[u64], answers: &mut [u64])
    requires { Quotable outputs.now counts.now (length answers.old) }
    ensures { answers.new ≡ flat_map entry_quote (named_entries outputs.now counts.now) ++ drop (3 * (length outputs.now / 2)) answers.old }
{
    for k in 0..outputs.len() / 2 {
        let at = 3 * k;
        let entry = get_entry(counts, 8 * output_at(outputs, k));
        answers[at..at + 3].copy_from_slice(&entry_quote(entry));
    }
}
