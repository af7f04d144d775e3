// Writing the program file of one output around its nodes.
#![tactic(auto)]

ghost use Rattle.std.specs.Prelude.{◌≤◌, ◌≡◌, length};
ghost use Rattle.std.proofs.lemmas.List.Edits.{sets};
ghost use Rattle.program_writer.specs.OneOutput.{FewNodes, body_file, body_file_length};

use areas::table::{Body, write_contents};
use wire::numbers::put16;

// Where the nodes start: behind the table of contents and the numbers of inputs and outputs.
pub const FIRST_NODE: usize = 36;

// Writes the program file of a node body whose last node is the one output.
pub fn write_program(area: &mut [u8], inputs: usize, nodes: &[u8])
    requires few_nodes { FewNodes inputs (length nodes.now) }
    requires area_room { body_file_length (length nodes.now) ≤ length area.old }
    ensures { area.new ≡ sets area.old 0 (body_file inputs nodes.now) }
{
    let end = nodes.len();
    let bodies = [
        Body { tag: 1, length: 4 },
        Body {
            tag: 2,
            length: end as u32,
        },
        Body { tag: 3, length: 2 },
    ];
    write_contents(area, &bodies);
    put16(area, FIRST_NODE - 4, inputs as u16);
    put16(area, FIRST_NODE - 2, 1);
    area[FIRST_NODE..FIRST_NODE + end].copy_from_slice(nodes);
    put16(area, FIRST_NODE + end, (end / 6 - 1) as u16);
}
