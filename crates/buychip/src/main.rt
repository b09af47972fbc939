// Buychip: which regular chip to buy for a script's source. It reads the script as gatewalk does, from standard input, the first 65,536 bytes at
// most, and writes the table.
#![tactic(auto)]

use text_stream::{Program, run_program};

struct Buychip;

impl Program for Buychip {
    fn answer(script: &[u8], out: &mut [u8]) -> usize {
        regular_table::put_table(script, out)
    }
}

// The table fits: seven lines of at most 85 bytes (`table_fits` in regular_table/proofs/Lengths).
fn main(rt: HostRuntime) {
    let mut text = [0u8; 595];
    run_program::<Buychip>(&rt, &mut text);
}
