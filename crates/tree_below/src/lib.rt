// The calls below: a push or a pop of the queues of a tree with disciplines, and what the disciplines keep after it. The calls on a tree by itself
// (`tree_calls`) and on a chip's tree (`chip_calls`) make them once their tests have passed. The tree is lent, so that it is not copied once more.
#![tactic(auto)]

ghost use Rattle.queue_state.specs.Calls.{answer_of};
ghost use Rattle.tree_below.specs.Below.{PushesAlong, PushesPlanned, Pops};

use discipline_clock::after_pop;
use queue_push::Path;
use queue_state::{Answer, Packet, Rank};
use refusal::Refusal;
use tree_state::Tree;

// Pushes a packet along a path, with its ranks as given, and alters no finish.
pub fn push_along(tree: &mut Tree, path: Path, packet: Packet) -> Answer
    ensures { PushesAlong tree.old path packet (answer_of result) tree.new }
{
    let served = queue_push::push(tree.state, path, packet);
    tree.state = served.state;
    served.answer
}

// Pushes a packet along a planned path and, if it is accepted, keeps the finishes of the plan. If the plan has none, since one does not fit, a push that
// would be accepted is refused by 23.
pub fn push_planned(
    tree: &mut Tree,
    path: Path,
    finish: Option<[Rank; 64]>,
    packet: Packet,
) -> Answer
    ensures { PushesPlanned tree.old path finish packet (answer_of result) tree.new }
{
    let served = queue_push::push(tree.state, path, packet);
    if let Answer::Accepted(_) = served.answer {
        let Some(finish) = finish else {
            return Answer::Refused(Refusal::LateFinish);
        };
        tree.disciplines.finish = finish;
    }
    tree.state = served.state;
    served.answer
}

// Pops the packet at the head. The virtual times of a drawing's nodes become the ranks that the pop took at their images.
pub fn pop(tree: &mut Tree, bytes: &[u8], images: &[u8]) -> Answer
    ensures { Pops tree.old bytes.now images.now (answer_of result) tree.new }
{
    let popped = queue_pop::pop(tree.state);
    tree.state = popped.served.state;
    tree.disciplines = after_pop(tree.disciplines, bytes, popped.way, images);
    popped.served.answer
}
