// Compiles document 01's AND of three inputs and runs its circuit, from the program file to the
// lines at the end. For each start it writes the lines before, the answer and the lines after.
#![tactic(auto)]

use end_to_end::compile_and_run;
use refusal::causes::Refusal;
use std::io;

// The target's line, behind three inputs.
const TARGET: usize = 3;

// The work line.
const WORK: usize = 4;

// Writes a word and the lines: inputs, target and work line.
fn write_lines(rt: &impl Print, word: &str, lines: &[u8]) -> io::Result<()> {
    rt.print(word)?;
    for (i, line) in lines.iter().enumerate() {
        if i == TARGET || i == WORK {
            rt.print(" ")?;
        }
        rt.print(*line)?;
    }
    rt.println("")
}

// Writes what was answered.
fn write_answer(rt: &impl Print, answer: Result<(), Refusal>) -> io::Result<()> {
    match answer {
        Ok(()) => rt.println("done"),
        Err(why) => println!(rt; "{why}"),
    }
}

// Compiles the file and runs its circuit from this start.
fn run_from(rt: &impl Print, lines: &mut [u8]) -> io::Result<()> {
    // The table of contents; 3 inputs and 1 output; the nodes INPUT 0, INPUT 1, AND 0 1, INPUT 2,
    // AND 2 3; the output is node 4.
    let file =
        b"\x03\0\x01\0\x20\0\0\0\x04\0\0\0\x02\0\x24\0\0\0\x1e\0\0\0\x03\0\x42\0\0\0\x02\0\0\0\
        \x03\0\x01\0\
        \x02\0\0\0\0\0\x02\0\x01\0\0\0\x05\0\0\0\x01\0\x02\0\x02\0\0\0\x05\0\x02\0\x03\0\
        \x04\0";
    let mut sizes = [0u16; 5];
    let mut area = [0u8; 52];
    write_lines(rt, "before ", lines)?;
    let answer = compile_and_run(file, 1024, &mut sizes, &mut area, lines);
    write_answer(rt, answer)?;
    write_lines(rt, "after  ", lines)
}

fn main(rt: HostRuntime) -> io::Result<()> {
    // The work line starts at zero: the target gets the AND.
    run_from(&rt, &mut [1, 1, 1, 0, 0])?;
    run_from(&rt, &mut [1, 1, 1, 1, 0])?;
    run_from(&rt, &mut [1, 0, 1, 1, 0])?;
    // It does not: the target gets something else, but it ends as it started.
    run_from(&rt, &mut [1, 1, 1, 0, 1])?;
    run_from(&rt, &mut [0, 0, 1, 0, 1])?;
    // The last line is missing.
    run_from(&rt, &mut [1, 1, 1, 0])
}
