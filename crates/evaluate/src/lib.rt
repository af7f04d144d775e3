// The service evaluate: an output's value on given input bits, and every node's value with it.
#![tactic(auto)]

mod values;

ghost use Rattle.std.specs.Prelude.{◌≡◌};
ghost use Rattle.refusal.specs.Answers.{answer_of};
ghost use Rattle.evaluate.specs.Evaluating.{evaluate_of};

use crate::values::fill_values;
use program::reader::{node_body, output_at, output_body, read_program};
use refusal::causes::Refusal;
use wire::bits::bits_fit;

// The value of an output of a program file on the input bytes. The value list is filled with every
// node's value; on a refusal it is as it was.
//
// This and evaluate_words are two functions, as each has a test of the inputs of its own, on which
// its fold stands: one function for both would have the fold made by a closure between its checks,
// which is no plainer. Their laws are the same (AskedLaws).
pub fn evaluate(file: &[u8], values: &mut [u8], inputs: &[u8], output: u64) -> Result<u8, Refusal>
    ensures result_value { answer_of result ≡ (evaluate_of file.now values.old inputs.now output).answer }
    ensures values_after { values.new ≡ (evaluate_of file.now values.old inputs.now output).values }
{
    // Document 01 names this form: the reader's answer taken apart by let .. else.
    let read = read_program(file);
    let Ok(head) = read else {
        return Err(read.unwrap_err());
    };
    if values.len() < head.nodes {
        return Err(Refusal::ListLength);
    }
    if !bits_fit(inputs, head.inputs) {
        return Err(Refusal::InputBytes);
    }
    if head.outputs as u64 <= output {
        return Err(Refusal::OutputNumber);
    }
    fill_values(node_body(file), inputs, values);
    Ok(values[output_at(output_body(file), output as usize)])
}
