// Gatewalk: runs a script over both trees. It reads the script from standard input, the first 65,536 bytes at most, and writes what the
// script prints.
#![tactic(auto)]

use text_stream::{Program, run_program};

struct Gatewalk;

impl Program for Gatewalk {
    fn answer(script: &[u8], out: &mut [u8]) -> usize {
        script_run::run(script, out)
    }
}

// The text fits: at most 13 bytes for each command, and 132 for a map (`output-fits` in script_run/proofs/Lengths).
fn main(rt: HostRuntime) {
    let mut text = [0u8; 852100];
    run_program::<Gatewalk>(&rt, &mut text);
}
