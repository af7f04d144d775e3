// The gates of a tree, built from its node's operands.
ghost use Rattle.program.specs.Tables.{tree_in};
ghost use Rattle.construction.specs.Steps.{built_count};
ghost use Rattle.progress.specs.Progress.{Wrote};
ghost use Rattle.construct.specs.Writing.{Room};

use appending::writer::GateWriter;
use controls::input_of;
use gate::gates::Gate;
use node::nodes::{Node, node_at};
use pool::LinePool;
use progress::append_and;

// XORs node i into the line target; the pool then. Calls itself on the operands, whose indices are
// lower, but not on an AND's operand that is an input: its line is the control.
pub fn build(
    nodes: &[u8],
    i: usize,
    target: u16,
    pool: LinePool,
    writer: &mut GateWriter<'_>,
) -> LinePool
    requires { Room nodes.now i target pool.free (built_count 1 (tree_in nodes.now i)) writer.old }
    ensures { Wrote (tree_in nodes.now i) target pool.free result.free writer.old writer.new }
{
    match node_at(nodes, i) {
        Node::Zero => pool,
        Node::One => {
            writer.append(Gate::Not { target });
            pool
        }
        Node::Input(j) => {
            writer.append(Gate::Cnot { control: j, target });
            pool
        }
        Node::Not(a) => {
            writer.append(Gate::Not { target });
            build(nodes, a as usize, target, pool, writer)
        }
        Node::Xor(a, b) => {
            let next = build(nodes, a as usize, target, pool, writer);
            build(nodes, b as usize, target, next, writer)
        }
        Node::And(marked, a, b) => {
            let from = writer.count;
            // The control of an operand that is built is the line that is free before it.
            let mut next = pool;
            let mut first = next.free as u16;
            match input_of(nodes, a as usize) {
                Some(line) => first = line,
                None => next = build(nodes, a as usize, first, next.take(), writer),
            }
            let mut second = next.free as u16;
            match input_of(nodes, b as usize) {
                Some(line) => second = line,
                None => next = build(nodes, b as usize, second, next.take(), writer),
            }
            let to = writer.count;
            append_and(writer, first, second, target);
            if marked {
                writer.append_reversed(from, to, target);
                next = next.release(pool.free);
            }
            next
        }
    }
}
