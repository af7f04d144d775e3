// The circuit of a program: its head, and the shares of the outputs in their order, each of them an
// output's gates and their undoing.
#![tactic(auto)]

ghost use Rattle.std.specs.Prelude.{◌≡◌};
ghost use Rattle.std.proofs.lemmas.List.Edits.{sets};
ghost use Rattle.circuit.specs.Circuits.{InRange};
ghost use Rattle.circuit.specs.Format.{opening_bytes};
ghost use Rattle.construction.specs.Construction.{share, circuit_gates};
ghost use Rattle.construction.specs.Pools.{all_free};
ghost use Rattle.construction.specs.Steps.{share_count};
ghost use Rattle.program.specs.Tables.{tree_in, trees_in};
ghost use Rattle.areas.specs.AreaGates.{put_gates};
ghost use Rattle.appending.specs.Appending.{Appended};
ghost use Rattle.construct.specs.Writing.{Room};
ghost use Rattle.shares.specs.Sharing.{CircuitRoom};

use appending::writer::GateWriter;
use areas::writer::write_head;
use circuit::reader::CircuitHead;
use construct::builder::build;
use pool::LinePool;
use program::reader::output_at;

// Appends the share of node i with this target. The lines that it took are free again, so that the
// next share starts with the same pool.
fn write_share(nodes: &[u8], i: usize, target: u16, pool: LinePool, writer: &mut GateWriter<'_>)
    requires { Room nodes.now i target pool.free (share_count 1 (tree_in nodes.now i)) writer.old }
    ensures { Appended (share (tree_in nodes.now i) target (all_free pool.free)).gates writer.old writer.new }
{
    let from = writer.count;
    build(nodes, i, target, pool, writer);
    let to = writer.count;
    writer.append_reversed(from, to, target);
}

// Stores the shares of all outputs over so many inputs, from the first gate on.
fn write_shares(nodes: &[u8], outputs: &[u8], inputs: usize, area: &mut [u8])
    requires { CircuitRoom nodes.now outputs.now inputs area.old }
    ensures { area.new ≡ put_gates area.old 0 (circuit_gates inputs (trees_in nodes.now outputs.now)) }
{
    let free = inputs + outputs.len() / 2;
    let pool = LinePool { free };
    let mut writer = GateWriter { area, count: 0 };
    for k in 0..outputs.len() / 2 {
        let target = (inputs + k) as u16;
        write_share(nodes, output_at(outputs, k), target, pool, &mut writer);
    }
}

// Stores the head and the shares of all outputs.
pub fn write_circuit(nodes: &[u8], outputs: &[u8], head: CircuitHead, area: &mut [u8])
    requires { InRange head × CircuitRoom nodes.now outputs.now head.inputs area.old }
    ensures { area.new ≡ put_gates (sets area.old 0 (opening_bytes head)) 0 (circuit_gates head.inputs (trees_in nodes.now outputs.now)) }
{
    write_head(area, head);
    write_shares(nodes, outputs, head.inputs, area);
}
