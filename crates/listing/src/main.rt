// Lists the circuit of the program file on standard input.
#![tactic(auto)]

// How many work lines are granted.
const GRANT: u64 = 1024;

fn main() {
    let mut input = [0u8; 32768];
    // A read that fails counts as the end of the input.
    let n = io::read_full(0, &mut input);
    let mut out = [0u8; list::LISTING_LENGTH];
    let length = list::list(&input[..n], GRANT, &mut out);
    io::write_all(1, &out[..length]);
}
