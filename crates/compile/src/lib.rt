// The service compile: a program file's circuit, written into a lent area.
#![tactic(auto)]

ghost use Rattle.std.specs.Prelude.{◌≡◌, length};
ghost use Rattle.refusal.specs.Answers.{answer_of, map_answer};
ghost use Rattle.circuit.specs.Circuits.{head_of};
ghost use Rattle.circuit.specs.Format.{circuit_file};
ghost use Rattle.wire.specs.Areas.{area_after};
ghost use Rattle.program.specs.Reading.{program_of};
ghost use Rattle.compilation.specs.Compiling.{compile_program, compile_of};
ghost use Rattle.compile.specs.Steps.{Listed};
ghost use Rattle.compilation.specs.Demand.{Demand3};
ghost use Rattle.compilation.specs.Marks.{MarksClean};

use circuit::layout::has_room;
use circuit::reader::CircuitHead;
use counting::count_shares;
use program::reader::{Head, node_body, output_body, read_program};
use refusal::causes::Refusal;
use shares::write_circuit;
use sizing::{check_sizes, fill_sizes};
use wire::limits::MOST_WORK;

// Compiles a program whose sizes are listed: causes 8 to 11, and everything is counted before
// anything is written.
fn compile_sized(
    file: &[u8],
    head: Head,
    grant: u64,
    sizes: &[u16],
    area: &mut [u8],
) -> Result<CircuitHead, Refusal>
    requires { Listed file.now head sizes.now }
    ensures result_value { answer_of result ≡ map_answer head_of (compile_program (program_of file.now) grant (length area.old)) }
    ensures area_after { area.new ≡ area_after (map_answer circuit_file (compile_program (program_of file.now) grant (length area.old))) area.old }
{
    let nodes = node_body(file);
    let outputs = output_body(file);
    check_sizes(outputs, sizes)?;
    if MOST_WORK < grant {
        return Err(Refusal::Grant);
    }
    let needs = count_shares(nodes, outputs);
    if grant < needs.lines as u64 {
        return Err(Refusal::WorkLines(needs.lines as u64));
    }
    if !has_room(needs.gates, area.len()) {
        area.fill(0);
        return Err(Refusal::Room(needs.gates as u64));
    }
    let written = CircuitHead {
        inputs: head.inputs,
        outputs: head.outputs,
        work: needs.lines,
        gates: needs.gates,
    };
    write_circuit(nodes, outputs, written, area);
    Ok(written)
}

// Compiles a program file with a grant of work lines. The size list is filled with the nodes'
// unfolded sizes as soon as it is long enough. On a result the circuit file is at the start of the
// area, and the area behind it is as it was; where there is no room for the file the whole area is
// zero, and on every other refusal it is as it was.
pub fn compile(
    file: &[u8],
    grant: u64,
    sizes: &mut [u16],
    area: &mut [u8],
) -> Result<CircuitHead, Refusal>
    ensures result_value { answer_of result ≡ (compile_of file.now grant sizes.old area.old).answer }
    ensures sizes_after { sizes.new ≡ (compile_of file.now grant sizes.old area.old).sizes }
    ensures area_after { area.new ≡ (compile_of file.now grant sizes.old area.old).area }
    ensures demand3 { Demand3 file.now (answer_of result) area.new }
    ensures marks_clean { MarksClean file.now (answer_of result) area.new }
{
    // Document 01 names this form: the reader's answer taken apart by let .. else.
    let read = read_program(file);
    let Ok(head) = read else {
        return Err(read.unwrap_err());
    };
    if sizes.len() < head.nodes {
        return Err(Refusal::ListLength);
    }
    fill_sizes(node_body(file), sizes);
    compile_sized(file, head, grant, sizes, area)
}
