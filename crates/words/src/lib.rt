// The service evaluate_words: an output's values on 64 questions at once. Bit k of every word
// belongs to question k.
#![tactic(auto)]

ghost use Rattle.std.specs.Prelude.{◌≡◌};
ghost use Rattle.refusal.specs.Answers.{answer_of};
ghost use Rattle.words.specs.EvaluatingWords.{evaluate_words_of};

use program::reader::{node_body, output_at, output_body, read_program};
use refusal::causes::Refusal;
use word_values::fill_words;

// The word of an output of a program file on the input words. The value list is filled with every
// node's word; on a refusal it is as it was.
//
// This and evaluate are two functions, as each has a test of the inputs of its own, on which its
// fold stands: one function for both would have the fold made by a closure between its checks,
// which is no plainer. Their laws are the same (AskedLaws).
pub fn evaluate_words(
    file: &[u8],
    values: &mut [u64],
    inputs: &[u64],
    output: u64,
) -> Result<u64, Refusal>
    ensures result_value { answer_of result ≡ (evaluate_words_of file.now values.old inputs.now output).answer }
    ensures values_after { values.new ≡ (evaluate_words_of file.now values.old inputs.now output).values }
{
    // Document 01 names this form: the reader's answer taken apart by let .. else.
    let read = read_program(file);
    let Ok(head) = read else {
        return Err(read.unwrap_err());
    };
    if values.len() < head.nodes {
        return Err(Refusal::ListLength);
    }
    if inputs.len() != head.inputs {
        return Err(Refusal::InputBytes);
    }
    if head.outputs as u64 <= output {
        return Err(Refusal::OutputNumber);
    }
    fill_words(node_body(file), inputs, values);
    Ok(values[output_at(output_body(file), output as usize)])
}
