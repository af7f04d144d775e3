// Running a circuit file on lines: the services run_forwards and run_backwards. They are two, as
// the C interface has them, and what they share is the reader: a function that takes the step would
// be no shorter.
#![tactic(auto)]

pub mod steps;

ghost use Rattle.std.specs.Prelude.{◌≡◌};
ghost use Rattle.run.specs.RunCircuit.{run_forwards, run_backwards, lines_after, ran, done};

use crate::steps::{apply_all, apply_all_back};
use circuit::reader::{gate_body, read_with_lines};
use refusal::causes::Refusal;

// Runs a circuit file on the lines, first gate first. On a refusal the lines are as they were.
pub fn run_forwards(file: &[u8], lines: &mut [u8]) -> Result<(), Refusal>
    ensures result_value { ran result ≡ done (run_forwards file.now lines.old) }
    ensures lines_after { lines.new ≡ lines_after (run_forwards file.now lines.old) lines.old }
{
    read_with_lines(file, lines)?;
    apply_all(gate_body(file), lines);
    Ok(())
}

// Runs a circuit file on the lines, last gate first. On a refusal the lines are as they were.
pub fn run_backwards(file: &[u8], lines: &mut [u8]) -> Result<(), Refusal>
    ensures result_value { ran result ≡ done (run_backwards file.now lines.old) }
    ensures lines_after { lines.new ≡ lines_after (run_backwards file.now lines.old) lines.old }
{
    read_with_lines(file, lines)?;
    apply_all_back(gate_body(file), lines);
    Ok(())
}
