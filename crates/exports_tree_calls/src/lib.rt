// The calls on a queue tree with disciplines by itself, for a program in C or Rust: `tests/` links and compares them. A tree is passed as plain
// numbers. Its opening and its counts are in the crate `exports_tree_state`.
#![tactic(auto)]

ghost use Rattle.pifo_model.specs.Machine.{pushing, popping};
ghost use Rattle.queue_push.specs.Calls.{steps_of};
ghost use Rattle.discipline_model.specs.Scheduler.{calling, pushing_to};
ghost use Rattle.exports_tree_calls.specs.Answers.{OwnServesPlain};

use exports_plain_tree::{PlainTree, PlainTreeAnswer};
use queue_push::Path;
use queue_state::Packet;

// Pushes a packet along a path.
#[unsafe(no_mangle)]
pub extern "C" fn linduvar_tree_push(tree: PlainTree, path: Path, packet: Packet) -> PlainTreeAnswer
    ensures { OwnServesPlain tree (calling (pushing (steps_of path) path.leaf_rank packet)) result }
{
    tree_calls::push(tree.into(), path, packet).into()
}

// Pushes a packet to a leaf, with its class and its length.
#[unsafe(no_mangle)]
pub extern "C" fn linduvar_tree_push_to_leaf(
    tree: PlainTree,
    leaf: usize,
    class: u8,
    length: u16,
    packet: Packet,
) -> PlainTreeAnswer
    ensures { OwnServesPlain tree (pushing_to leaf class length packet) result }
{
    tree_calls::push_to_leaf(tree.into(), leaf, class, length, packet).into()
}

// Pops the packet at the head.
#[unsafe(no_mangle)]
pub extern "C" fn linduvar_tree_pop(tree: PlainTree) -> PlainTreeAnswer
    ensures { OwnServesPlain tree (calling popping) result }
{
    tree_calls::pop(tree.into()).into()
}
