// The service quote: the gates, Toffolis and work lines of each output's share; nothing is built.
#![tactic(auto)]

mod answers;

ghost use Rattle.std.specs.Prelude.{◌≡◌};
ghost use Rattle.refusal.specs.Answers.{answer_of};
ghost use Rattle.quotation.specs.Quoting.{quote_of};

use crate::answers::write_answers;
use entries::fill_entries;
use program::reader::{node_body, output_body, read_program};
use refusal::causes::Refusal;

// Quotes a program file; how many outputs are quoted. The count list needs eight numbers a node,
// the answer list three an output. On a result the answer list has the gates, the Toffolis and the
// work lines of each output's share, and the count list is zero over the entries of the nodes; what
// stands behind is as it was. On a refusal both lists are as they were.
pub fn quote(file: &[u8], counts: &mut [u64], answers: &mut [u64]) -> Result<u64, Refusal>
    ensures result_value { answer_of result ≡ (quote_of file.now counts.old answers.old).answer }
    ensures counts_after { counts.new ≡ (quote_of file.now counts.old answers.old).counts }
    ensures answers_after { answers.new ≡ (quote_of file.now counts.old answers.old).answers }
{
    let head = read_program(file)?;
    if counts.len() / 8 < head.nodes || answers.len() / 3 < head.outputs {
        return Err(Refusal::ListLength);
    }
    fill_entries(node_body(file), counts);
    write_answers(output_body(file), counts, answers);
    counts[..8 * head.nodes].fill(0);
    Ok(head.outputs as u64)
}
