// What loaders link: one exported C function for each service, with the service's parameters in
// their order. A slice is a pointer and then a length.
#![tactic(auto)]

ghost use Rattle.std.specs.Prelude.{◌≡◌, length};
ghost use Rattle.refusal.specs.Answers.{map_answer};
ghost use Rattle.circuit.specs.Format.{circuit_file, file_length};
ghost use Rattle.wire.specs.Areas.{area_after};
ghost use Rattle.circuit.specs.Reading.{read_circuit};
ghost use Rattle.run.specs.RunCircuit.{run_forwards, run_backwards, lines_after, done};
ghost use Rattle.undo.specs.UndoCircuit.{undo_file};
ghost use Rattle.program.specs.Reading.{read_program};
ghost use Rattle.evaluate.specs.Evaluating.{evaluate_of};
ghost use Rattle.words.specs.EvaluatingWords.{evaluate_words_of};
ghost use Rattle.compilation.specs.Compiling.{compile_of};
ghost use Rattle.quotation.specs.Quoting.{quote_of};
ghost use Rattle.parsing.specs.Parsing.{parse_of};
ghost use Rattle.abi.specs.Exported.{exported, exported_head, program_head, circuit_head};
ghost use Rattle.oracle.specs.Exported.{ExportedDemand3};

use abi::{OracleAnswer, OracleHead, file_answer};
use circuit::reader::read_circuit;
use compile::compile;
use evaluate::evaluate;
use formula::parse;
use program::reader::read_program;
use quote::quote;
use run::{run_backwards, run_forwards};
use undo::undo;
use words::evaluate_words;

// Parses a formula over so many inputs and writes its program file; the value of a result is the
// number of bytes written.
#[unsafe(no_mangle)]
pub extern "C" fn oracle_parse(text: &[u8], inputs: u64, area: &mut [u8]) -> OracleAnswer
    ensures value { result ≡ exported (parse_of text.now inputs area.old).answer }
    ensures area_after { area.new ≡ (parse_of text.now inputs area.old).area }
{
    parse(text, inputs, area).map(|bytes| bytes as u64).into()
}

// Reads a program file; the value of a result is the number of nodes.
#[unsafe(no_mangle)]
pub extern "C" fn oracle_read_program(file: &[u8]) -> OracleHead
    ensures { result ≡ exported_head (map_answer program_head (read_program file.now)) }
{
    read_program(file).into()
}

// Evaluates an output of a program file; the value of a result is the output's bit.
#[unsafe(no_mangle)]
pub extern "C" fn oracle_evaluate(
    file: &[u8],
    values: &mut [u8],
    inputs: &[u8],
    output: u64,
) -> OracleAnswer
    ensures value { result ≡ exported (evaluate_of file.now values.old inputs.now output).answer }
    ensures values_after { values.new ≡ (evaluate_of file.now values.old inputs.now output).values }
{
    evaluate(file, values, inputs, output).map(u64::from).into()
}

// Evaluates an output of a program file on 64 questions; the value of a result is the output's
// word.
#[unsafe(no_mangle)]
pub extern "C" fn oracle_evaluate_words(
    file: &[u8],
    values: &mut [u64],
    inputs: &[u64],
    output: u64,
) -> OracleAnswer
    ensures value { result ≡ exported (evaluate_words_of file.now values.old inputs.now output).answer }
    ensures values_after { values.new ≡ (evaluate_words_of file.now values.old inputs.now output).values }
{
    evaluate_words(file, values, inputs, output).into()
}

// Quotes a program file; the value of a result is the number of outputs.
#[unsafe(no_mangle)]
pub extern "C" fn oracle_quote(file: &[u8], counts: &mut [u64], answers: &mut [u64]) -> OracleAnswer
    ensures value { result ≡ exported (quote_of file.now counts.old answers.old).answer }
    ensures counts_after { counts.new ≡ (quote_of file.now counts.old answers.old).counts }
    ensures answers_after { answers.new ≡ (quote_of file.now counts.old answers.old).answers }
{
    quote(file, counts, answers).into()
}

// Reads a circuit file; the value of a result is the number of gates.
#[unsafe(no_mangle)]
pub extern "C" fn oracle_read_circuit(file: &[u8]) -> OracleHead
    ensures { result ≡ exported_head (map_answer circuit_head (read_circuit file.now)) }
{
    read_circuit(file).into()
}

// Runs a circuit file on the lines, first gate first.
#[unsafe(no_mangle)]
pub extern "C" fn oracle_run_forwards(file: &[u8], lines: &mut [u8]) -> OracleAnswer
    ensures value { result ≡ exported (done (run_forwards file.now lines.old)) }
    ensures lines_after { lines.new ≡ lines_after (run_forwards file.now lines.old) lines.old }
{
    run_forwards(file, lines).map(|()| 0).into()
}

// Runs a circuit file on the lines, last gate first.
#[unsafe(no_mangle)]
pub extern "C" fn oracle_run_backwards(file: &[u8], lines: &mut [u8]) -> OracleAnswer
    ensures value { result ≡ exported (done (run_backwards file.now lines.old)) }
    ensures lines_after { lines.new ≡ lines_after (run_backwards file.now lines.old) lines.old }
{
    run_backwards(file, lines).map(|()| 0).into()
}

// Undoes a circuit file except on the chosen lines; the value of a result is the number of bytes
// written.
#[unsafe(no_mangle)]
pub extern "C" fn oracle_undo(file: &[u8], choices: &[u8], area: &mut [u8]) -> OracleAnswer
    ensures value { result ≡ exported (map_answer (λ c. length (circuit_file c)) (undo_file file.now choices.now (length area.old))) }
    ensures area_after { area.new ≡ area_after (map_answer circuit_file (undo_file file.now choices.now (length area.old))) area.old }
{
    file_answer(undo(file, choices, area))
}

// Compiles a program file with a grant of work lines; the value of a result is the number of bytes
// written.
#[unsafe(no_mangle)]
pub extern "C" fn oracle_compile(
    file: &[u8],
    grant: u64,
    sizes: &mut [u16],
    area: &mut [u8],
) -> OracleAnswer
    ensures value { result ≡ exported (map_answer (λ h. file_length h.gates) (compile_of file.now grant sizes.old area.old).answer) }
    ensures sizes_after { sizes.new ≡ (compile_of file.now grant sizes.old area.old).sizes }
    ensures area_after { area.new ≡ (compile_of file.now grant sizes.old area.old).area }
    ensures exported_demand3 { ExportedDemand3 file.now result area.new }
{
    file_answer(compile(file, grant, sizes, area))
}
