// Drawtrees: draws both trees of a script and the map between them as one sheet in SVG. It reads the script as gatewalk does, from standard input,
// the first 65,536 bytes at most.
#![tactic(auto)]

use text_stream::{Program, run_program};

struct Drawtrees;

impl Program for Drawtrees {
    fn answer(script: &[u8], out: &mut [u8]) -> usize {
        drawing_svg::draw_script(script, out)
    }
}

// The sheet fits (`sheet-fits` in drawing_svg/proofs/Lengths).
fn main(rt: HostRuntime) {
    let mut text = [0u8; 23735];
    run_program::<Drawtrees>(&rt, &mut text);
}
