// The calls on a queue tree with disciplines, by itself. A call takes the tree by value and returns the tree after it by value.
//
// The first test of a call has no `?`: the call answers no Result but a `TreeServed`, which holds the tree too.
#![tactic(auto)]

ghost use Rattle.pifo_model.specs.Machine.{pushing, popping};
ghost use Rattle.queue_state.specs.Calls.{answer_of};
ghost use Rattle.queue_push.specs.Calls.{steps_of};
ghost use Rattle.discipline_model.specs.Scheduler.{calling, pushing_to};
ghost use Rattle.tree_state.specs.Calls.{OwnServes};

use discipline_check::is_leaf;
use discipline_clock::own_images;
use discipline_path::plan_to;
use queue_counts::check_state;
use queue_push::Path;
use queue_state::{Answer, Packet};
use refusal::Refusal;
use tree_counts::test_rules;
use tree_state::{Tree, TreeServed};

// Pushes a packet along a path, with its ranks as given, and alters no finish. 18, 13, 14, 15 are tested in this order.
pub fn push(mut tree: Tree, path: Path, packet: Packet) -> TreeServed
    ensures { OwnServes tree (calling (pushing (steps_of path) path.leaf_rank packet)) (answer_of result.answer) result.tree }
{
    let answer = match test_rules(&tree) {
        Ok(()) => tree_below::push_along(&mut tree, path, packet),
        Err(refusal) => Answer::Refused(refusal),
    };
    TreeServed { tree, answer }
}

// Pushes a packet of a class and a length to a leaf, with the ranks that the disciplines give. 18, 25, 15, 23 are tested in this order.
pub fn push_to_leaf(
    mut tree: Tree,
    leaf: usize,
    class: u8,
    length: u16,
    packet: Packet,
) -> TreeServed
    ensures { OwnServes tree (pushing_to leaf class length packet) (answer_of result.answer) result.tree }
{
    let answer = match test_rules(&tree) {
        Ok(()) if !is_leaf(tree.state.bytes(), leaf) => {
            Answer::Refused(check_state(tree.state).err().unwrap_or(Refusal::NoLeaf))
        }
        Ok(()) => {
            let plan = plan_to(tree.state.bytes(), tree.disciplines, leaf, class, length);
            tree_below::push_planned(&mut tree, plan.path, plan.finish, packet)
        }
        Err(refusal) => Answer::Refused(refusal),
    };
    TreeServed { tree, answer }
}

// Pops the packet at the head; the virtual times on its way become the ranks that it took. 18 and 16 are tested in this order.
pub fn pop(mut tree: Tree) -> TreeServed
    ensures { OwnServes tree (calling popping) (answer_of result.answer) result.tree }
{
    // A copy, from which the topology is read while the tree itself is lent to the call below.
    let frame = tree.state.frame;
    let tested = test_rules(&tree);
    let answer = match tested {
        Ok(()) => tree_below::pop(&mut tree, frame.bytes(), &own_images()),
        Err(refusal) => Answer::Refused(refusal),
    };
    TreeServed { tree, answer }
}
