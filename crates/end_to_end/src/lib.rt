// Compiling a program file, reading the circuit back and running it, on lent areas: demand 3,
// carried by running code.
#![tactic(auto)]

ghost use Rattle.std.specs.Prelude.{◌≡◌};
ghost use Rattle.run.specs.RunCircuit.{lines_after, ran, done};
ghost use Rattle.compilation.specs.Compiling.{compile_of};
ghost use Rattle.end_to_end.specs.EndToEnd.{compile_and_run, Ends};

use circuit::layout::file_length;
use compile::compile;
use refusal::causes::Refusal;
use run::run_forwards;

// Compiles a program file and runs the file written on the lines; running reads it back first. On
// a refusal the lines are as they were, and the other areas as compiling leaves them.
pub fn compile_and_run(
    file: &[u8],
    grant: u64,
    sizes: &mut [u16],
    area: &mut [u8],
    lines: &mut [u8],
) -> Result<(), Refusal>
    ensures result_value { ran result ≡ done (compile_and_run file.now grant sizes.old area.old lines.old) }
    ensures sizes_after { sizes.new ≡ (compile_of file.now grant sizes.old area.old).sizes }
    ensures area_after { area.new ≡ (compile_of file.now grant sizes.old area.old).area }
    ensures lines_after { lines.new ≡ lines_after (compile_and_run file.now grant sizes.old area.old lines.old) lines.old }
    ensures ends { Ends file.now grant sizes.old area.old lines.old (ran result) lines.new }
{
    let head = compile(file, grant, sizes, area)?;
    let end = file_length(head.gates);
    run_forwards(&area[..end], lines)
}
