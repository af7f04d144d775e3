// The reader of program files: causes 1 to 6, in the order of their numbers.
ghost use Rattle.std.specs.Prelude.{◌≡◌, true, ◌+◌, ◌*◌, ◌/◌, ◌≤◌, length};
ghost use Rattle.refusal.specs.Answers.{map_answer, answer_of, checked_each};
ghost use Rattle.contents.specs.Contents.{entry_length, body_of};
ghost use Rattle.contents.specs.Steps.{Laid};
ghost use Rattle.contents.specs.Arity.{arity_fits};
ghost use Rattle.node.specs.Nodes.{node_fits};
ghost use Rattle.program.specs.Programs.{head_of};
ghost use Rattle.program.specs.Reading.{output_at, output_fits, lengths_fit, read_bodies, read_program};

use contents::arity::arity_fits;
use contents::reader::{body, entry_length, read_contents};
use node::nodes::read_node;
use refusal::causes::Refusal;
use wire::limits::MOST_NODES;
use wire::numbers::get16;

// How many inputs, outputs and nodes a program has.
#[derive(Clone, Copy, Debug, PartialEq, Eq)]
pub struct Head {
    pub inputs: usize,
    pub outputs: usize,
    pub nodes: usize,
}

// Reads the nodes of a node body; the lowest one that is not in order is refused.
fn read_nodes(nodes: &[u8], inputs: usize) -> Result<(), Refusal>
    ensures { answer_of result ≡ checked_each (node_fits inputs nodes.now) (length nodes.now / 6) Refusal.Node }
{
    for i in 0..nodes.len() / 6 {
        read_node(nodes, i, inputs)?;
    }
    Ok(())
}

// The index of the node that output k names.
pub fn output_at(outputs: &[u8], k: usize) -> usize
    requires { 2 * (k + 1) ≤ length outputs.now }
    ensures { result ≡ output_at outputs.now k }
{
    get16(outputs, 2 * k) as usize
}

// Reads the outputs of an output body; the lowest one that names none of the nodes is refused.
fn read_outputs(outputs: &[u8], nodes: usize) -> Result<(), Refusal>
    ensures { answer_of result ≡ checked_each (output_fits nodes outputs.now) (length outputs.now / 2) Refusal.Output }
{
    for k in 0..outputs.len() / 2 {
        if nodes <= output_at(outputs, k) {
            return Err(Refusal::Output(k as u64));
        }
    }
    Ok(())
}

// Whether the bodies have the lengths that their layout asks for. The number of outputs is taken
// as read: whether it is in range is a later check.
//
// Here and below, that the bodies lie within the file (Laid) is asked of the file and is no
// struct's ghost field: readers and services lend the file itself, and a body is a part of that
// slice (01).
fn lengths_fit(file: &[u8]) -> bool
    requires { Laid 3 file.now }
    ensures { result ≡ lengths_fit file.now }
{
    if entry_length(file, 0) != 4 {
        return false;
    }
    let nodes = entry_length(file, 1) as usize;
    let outputs = get16(body(file, 0), 2) as u32;
    nodes % 6 == 0
        && 1 <= nodes / 6
        && nodes / 6 <= MOST_NODES
        && entry_length(file, 2) == 2 * outputs
}

// Whether the numbers of inputs and outputs are in range.
fn ranges_fit(file: &[u8]) -> bool
    requires { Laid 3 file.now × (entry_length file.now 0 ≡ 4) }
    ensures { result ≡ arity_fits (body_of file.now 0) }
{
    arity_fits(body(file, 0))
}

// The node body of a file.
pub fn node_body(file: &[u8]) -> &[u8]
    requires { Laid 3 file.now }
    ensures { result.now ≡ body_of file.now 1 }
{
    body(file, 1)
}

// The output body of a file.
pub fn output_body(file: &[u8]) -> &[u8]
    requires { Laid 3 file.now }
    ensures { result.now ≡ body_of file.now 2 }
{
    body(file, 2)
}

// Reads the node body and the output body, each as its own part of the file.
fn read_bodies(file: &[u8]) -> Result<Head, Refusal>
    requires { Laid 3 file.now × (lengths_fit file.now ≡ true) }
    ensures { answer_of result ≡ map_answer head_of (read_bodies file.now) }
{
    let head = body(file, 0);
    let inputs = get16(head, 0) as usize;
    let outputs = get16(head, 2) as usize;
    let nodes = entry_length(file, 1) as usize / 6;
    read_nodes(node_body(file), inputs)?;
    read_outputs(output_body(file), nodes)?;
    Ok(Head {
        inputs,
        outputs,
        nodes,
    })
}

// Reads a program file: how many inputs, outputs and nodes it has, or the first cause to refuse it.
pub fn read_program(file: &[u8]) -> Result<Head, Refusal>
    ensures { answer_of result ≡ map_answer head_of (read_program file.now) }
{
    read_contents(file, &[1, 2, 3])?;
    if !lengths_fit(file) {
        return Err(Refusal::BodyLength);
    }
    if !ranges_fit(file) {
        return Err(Refusal::Range);
    }
    read_bodies(file)
}
