// The calls on a chip's tree with disciplines (paper 02, 2.1), with a map of a drawing. The disciplines, and their faults, are those of the drawing's
// nodes; the queues are the chip's. The drawing and the map are arguments of each call; the chip's own topology is in its state.
//
// The drawing and the map are two slices, as C gives them: a struct of both would be taken apart in each call, since what it calls takes the slices.
// The first test of a call has no `?`: the call answers no Result but a `TreeServed`, which holds the tree too.
#![tactic(auto)]

ghost use Rattle.std.specs.Prelude.{◌≡◌, cond};
ghost use Rattle.refusal.specs.Numbers.{number};
ghost use Rattle.pifo_model.specs.Machine.{pushing, popping, refused};
ghost use Rattle.queue_state.specs.State.{well_formed};
ghost use Rattle.queue_state.specs.Calls.{answer_of};
ghost use Rattle.queue_push.specs.Calls.{steps_of};
ghost use Rattle.discipline_model.specs.Scheduler.{calling, pushing_to};
ghost use Rattle.chip_state.specs.Calls.{ChipServes};

use chip_counts::test_first;
use discipline_check::is_leaf;
use discipline_path::plan_to;
use embedding_check::check;
use queue_counts::check_state;
use queue_push::Path;
use queue_state::{Answer, Packet};
use refusal::Refusal;
use translator::carry;
use tree_state::{Tree, TreeServed};

// The answer for a refusal that is tested after 18.
fn refuse(tree: &Tree, refusal: Refusal) -> Answer
    ensures { answer_of result ≡ refused (cond (well_formed tree.now.state) (number refusal) 18) }
{
    Answer::Refused(check_state(tree.state).err().unwrap_or(refusal))
}

// Pushes a packet along a path of the drawing, carried over, with its ranks as given, and alters no finish. Tested in this order: 1 to 5 of the
// source, 18, 6, 26, 7 to 11, 13 and 14 by the source, 15.
pub fn push(source: &[u8], map: &[u8], mut tree: Tree, path: Path, packet: Packet) -> TreeServed
    ensures { ChipServes source.now map.now tree (calling (pushing (steps_of path) path.leaf_rank packet)) (answer_of result.answer) result.tree }
{
    if let Err(refusal) = test_first(source, &tree) {
        return TreeServed {
            tree,
            answer: Answer::Refused(refusal),
        };
    }
    let answer = match carry(source, tree.state.bytes(), map, path) {
        Ok(over) => tree_below::push_along(&mut tree, over, packet),
        Err(refusal) => refuse(&tree, refusal),
    };
    TreeServed { tree, answer }
}

// Pushes a packet of a class and a length to a leaf of the drawing, with the ranks that the disciplines give. Tested in this order: 1 to 5 of the
// source, 18, 6, 26, 7 to 11, 25 by the source, 15, 23.
pub fn push_to_leaf(
    source: &[u8],
    map: &[u8],
    mut tree: Tree,
    leaf: usize,
    class: u8,
    length: u16,
    packet: Packet,
) -> TreeServed
    ensures { ChipServes source.now map.now tree (pushing_to leaf class length packet) (answer_of result.answer) result.tree }
{
    if let Err(refusal) = test_first(source, &tree) {
        return TreeServed {
            tree,
            answer: Answer::Refused(refusal),
        };
    }
    let target = tree.state.bytes();
    if !is_leaf(source, leaf) {
        let refusal = check(source, target, map).err().unwrap_or(Refusal::NoLeaf);
        return TreeServed {
            tree,
            answer: refuse(&tree, refusal),
        };
    }
    let plan = plan_to(source, tree.disciplines, leaf, class, length);
    let answer = match carry(source, target, map, plan.path) {
        Ok(over) => tree_below::push_planned(&mut tree, over, plan.finish, packet),
        Err(refusal) => refuse(&tree, refusal),
    };
    TreeServed { tree, answer }
}

// Pops the packet at the head; the virtual time of a source node becomes the rank that the pop took at its image. Tested in this order: 1 to 5 of the
// source, 18, 6, 26, 7 to 11, 16.
pub fn pop(source: &[u8], map: &[u8], mut tree: Tree) -> TreeServed
    ensures { ChipServes source.now map.now tree (calling popping) (answer_of result.answer) result.tree }
{
    if let Err(refusal) = test_first(source, &tree) {
        return TreeServed {
            tree,
            answer: Answer::Refused(refusal),
        };
    }
    let answer = match check(source, tree.state.bytes(), map) {
        Ok(()) => tree_below::pop(&mut tree, source, map),
        Err(refusal) => refuse(&tree, refusal),
    };
    TreeServed { tree, answer }
}
