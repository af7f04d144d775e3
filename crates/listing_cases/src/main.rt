// Lists the circuit of each program file that its arguments name: the files of data/, in the order
// of the file args.
#![tactic(auto)]

ghost use Rattle.std.specs.Prelude.{◌≤◌, length, IfOk};

use std::env::FillError;
use std::fs::File;
use std::io::Read;
use std::rt::{Env, Files};
use std::{io, str};

// Reads a file up to its end, or until the buffer is full; how many bytes there are.
fn read_file(rt: &impl Files, path: &str, input: &mut [u8]) -> io::Result<usize>
    ensures { IfOk result (λ n. n ≤ length input.new) }
{
    let mut file = File::open(rt, path)?;
    let mut done = 0;
    while done < input.len() {
        let n = file.read(&mut input[done..])?;
        if n == 0 {
            break;
        }
        done += n;
    }
    Ok(done)
}

// Lists one program file. One that cannot be read is said to be so, and passed over.
fn list_file(rt: &HostRuntime, path: &str) -> io::Result<()> {
    let mut input = [0u8; 32768];
    match read_file(rt, path, &mut input) {
        Ok(n) => {
            let mut out = [0u8; list::LISTING_LENGTH];
            let length = list::list(&input[..n], 1024, &mut out);
            rt.write_all(&out[..length])
        }
        Err(error) => eprintln!(rt; "{path}: {error}"),
    }
}

// Lists the program file of this name.
fn list_named(rt: &HostRuntime, name: &[u8]) -> io::Result<()> {
    match str::from_utf8(name) {
        Ok(path) => list_file(rt, path),
        Err(_) => eprintln!(rt; "a name that is not UTF-8"),
    }
}

fn main(rt: HostRuntime) -> io::Result<()> {
    for i in 1..usize::MAX {
        let mut name = [0u8; 64];
        match rt.arg(i, &mut name) {
            Ok(n) => list_named(&rt, &name[..n])?,
            // No file is looked for under a longer name.
            Err(FillError::TooLong) => list_named(&rt, b"")?,
            Err(FillError::NotPresent) => break,
        }
    }
    Ok(())
}
