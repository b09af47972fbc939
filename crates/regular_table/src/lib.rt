// The text of buychip for a script: for each number of children the regular chip of the least depth into which the source has a map.
#![tactic(auto)]

ghost use Rattle.std.specs.Prelude.{◌≡◌, ◌≤◌, ◌^◌};
ghost use Rattle.topology.specs.Tree.{size};
ghost use Rattle.regular_model.specs.Regular.{complete};
ghost use Rattle.regular_model.specs.InnerNeed.{most_leaves};
ghost use Rattle.text.specs.Appending.{Appends};
ghost use Rattle.regular_table.specs.Table.{chip_line, Table, Prints, Writes};
ghost use Rattle.regular_table.specs.InnerTable.{Adds};

use regular_depth::least_depth;
use script_lines::put_no;
use script_setup::{Ending, gathered_of};
use text::Text;
use text_templates::put_filled;
use topology::TARGET_NODES;

// The number of nodes of a complete tree: the root, and d trees that are one less deep. A chip of the table has at most 2^29 leaves, so nothing
// overflows here.
fn nodes_of(d: usize, depth: usize) -> usize
    requires { (2 ≤ d) × (d ^ depth ≤ most_leaves) }
    ensures { result ≡ size (complete d depth) }
{
    let mut nodes = 1;
    for _ in 0..depth {
        nodes = nodes * d + 1;
    }
    nodes
}

// The line of a chip. If a regular chip has at most 64 nodes, it lies within the other limits of a target too.
fn put_chip(text: &mut Text<'_>, d: usize, depth: usize)
    requires { (2 ≤ d) × (d ≤ 8) × (d ^ depth ≤ most_leaves) }
    ensures { Appends text.old (chip_line d depth) text.new }
{
    let nodes = nodes_of(d, depth);
    // The cast loses nothing, and a `try_from` would give a Result that is never an error.
    let leaves = d.pow(depth as u32);
    let line: &[u8] = if nodes <= TARGET_NODES {
        b"d #: depth #, # nodes, # leaves\n"
    } else {
        b"d #: depth #, # nodes, # leaves, cannot be loaded by this software\n"
    };
    put_filled(text, line, &[d, depth, nodes, leaves])
}

// The lines for a source, or its refusal at an offset. Since d is in range, only the source can be refused, and then the first call refuses it.
fn put_chips(text: &mut Text<'_>, source: &[u8], offset: usize)
    ensures { Adds (Table source.now offset) text.old text.new }
{
    for d in 2..=8 {
        match least_depth(source, d) {
            Ok(depth) => put_chip(text, d, depth),
            Err(refusal) => return put_no(text, refusal.into(), offset),
        }
    }
}

// The text for a script. It takes the source from the setup, and needs neither a target nor a limit: an 04 without a limit before it is accepted. The
// setup refuses such a command as out of turn, and its first byte, 4, tells that it is an 04.
pub fn put_table(script: &[u8], out: &mut [u8]) -> usize
    ensures { Writes (Prints script.now) out.old 0 out.new result }
{
    let gathered = gathered_of(script);
    let source = gathered.drawing.source.as_slice();
    let mut text = Text::new(out);
    match gathered.ending {
        Ending::End => put_chips(&mut text, source, script.len()),
        Ending::Refused(_, at) if script.get(at) == Some(&4) => put_chips(&mut text, source, at),
        Ending::Refused(refusal, at) => put_no(&mut text, refusal.into(), at),
        Ending::Compile(at) => put_chips(&mut text, source, at),
    }
    text.place()
}
