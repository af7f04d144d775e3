// Writes the circuit file of document 01's worked case, the AND of four inputs, to standard output.
#![tactic(auto)]

use circuit::reader::CircuitHead;
use counting::count_shares;
use shares::write_circuit;
use std::io;

fn main(rt: HostRuntime) -> io::Result<()> {
    // INPUT 0, INPUT 1, AND 0 1, INPUT 2, AND 2 3, INPUT 3, AND 4 5; the output is node 6.
    let nodes =
        b"\x02\0\0\0\0\0\x02\0\x01\0\0\0\x05\0\0\0\x01\0\x02\0\x02\0\0\0\x05\0\x02\0\x03\0\x02\0\x03\0\0\0\x05\0\x04\0\x05\0";
    let outputs = b"\x06\0";
    let mut area = [0u8; 68];
    let needs = count_shares(nodes, outputs);
    let head = CircuitHead {
        inputs: 4,
        outputs: 1,
        work: needs.lines,
        gates: needs.gates,
    };
    write_circuit(nodes, outputs, head, &mut area);
    rt.write_all(&area)
}
