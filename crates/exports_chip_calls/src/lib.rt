// The calls on a chip's tree with disciplines, with a map of a drawing, for a program in C or Rust: `tests/` links and compares them. A tree is
// passed as plain numbers, the drawing and the map as slices.
#![tactic(auto)]

ghost use Rattle.pifo_model.specs.Machine.{pushing, popping};
ghost use Rattle.queue_push.specs.Calls.{steps_of};
ghost use Rattle.discipline_model.specs.Scheduler.{calling, pushing_to};
ghost use Rattle.exports_chip_calls.specs.Answers.{ChipServesPlain};

use exports_plain_tree::{PlainTree, PlainTreeAnswer};
use queue_push::Path;
use queue_state::Packet;

// Pushes a packet along a path of the drawing.
#[unsafe(no_mangle)]
pub extern "C" fn linduvar_chip_push(
    source: &[u8],
    map: &[u8],
    tree: PlainTree,
    path: Path,
    packet: Packet,
) -> PlainTreeAnswer
    ensures { ChipServesPlain source.now map.now tree (calling (pushing (steps_of path) path.leaf_rank packet)) result }
{
    chip_calls::push(source, map, tree.into(), path, packet).into()
}

// Pushes a packet to a leaf of the drawing, with its class and its length.
#[unsafe(no_mangle)]
pub extern "C" fn linduvar_chip_push_to_leaf(
    source: &[u8],
    map: &[u8],
    tree: PlainTree,
    leaf: usize,
    class: u8,
    length: u16,
    packet: Packet,
) -> PlainTreeAnswer
    ensures { ChipServesPlain source.now map.now tree (pushing_to leaf class length packet) result }
{
    chip_calls::push_to_leaf(source, map, tree.into(), leaf, class, length, packet).into()
}

// Pops the packet at the head.
#[unsafe(no_mangle)]
pub extern "C" fn linduvar_chip_pop(source: &[u8], map: &[u8], tree: PlainTree) -> PlainTreeAnswer
    ensures { ChipServesPlain source.now map.now tree (calling popping) result }
{
    chip_calls::pop(source, map, tree.into()).into()
}
