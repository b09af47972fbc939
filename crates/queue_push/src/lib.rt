// The push of the queue tree, a PIFO tree with a packet limit: it takes the tree's state and returns the state after it. The crate `queue_state` has
// the state and its opening, `queue_check` its test, `queue_pop` the pop.
#![tactic(auto)]

mod arrivals;

ghost use Rattle.std.specs.Prelude.{◌≡◌, suc, min, [], take};
ghost use Rattle.pifo_model.specs.Machine.{pushing, most};
ghost use Rattle.queue_state.specs.Calls.{answer_of, Serves};
ghost use Rattle.queue_push.specs.Calls.{steps_of, path_of, extended_by};

use queue_check::examine;
use queue_state::{Answer, Packet, Rank, Served, State};
use refusal::Refusal;

#[repr(C)]
#[derive(Clone, Copy)]
pub struct Step {
    pub child: u8,
    pub rank: Rank,
}

// A path: its first `count` steps, and the rank at the leaf. There is a place for a ninth step, which every tree refuses by 13. C programs pass it,
// so it is an array beside a count.
#[repr(C)]
#[derive(Clone, Copy)]
pub struct Path {
    pub steps: [Step; 9],
    pub count: usize,
    pub leaf_rank: Rank,
}

impl Path {
    // A path without steps.
    pub fn new(leaf_rank: Rank) -> Path
        ensures { result ≡ path_of [] leaf_rank }
    {
        Path {
            steps: [Step { child: 0, rank: 0 }; 9],
            count: 0,
            leaf_rank,
        }
    }

    // The steps; a count above nine reads as nine.
    pub fn steps(&self) -> &[Step]
        ensures { result.now ≡ take self.now.count self.now.steps }
    {
        &self.steps[..self.count.min(9)]
    }
}

// The path with one more step; unchanged if its nine places are full.
#[tactic(auto, unfolding(crate::specs::Calls::extended_by))]
pub fn extended(mut path: Path, child: u8, rank: Rank) -> Path
    ensures { result ≡ extended_by path child rank }
{
    if path.count < 9 {
        path.steps[path.count] = Step { child, rank };
        path.count += 1;
    }
    path
}

// Pushes a packet along a path: 18, 13, 14, 15 are tested in this order.
//
// Each function that takes a state copies it. So the loop is in this function, and one copy is tested and then changed in place. The limit and
// the number of nodes are read from the argument, so that the compiler makes no second copy.
//
// The loop makes room, from the last queue to the first. Each new entry goes behind the entries of its queue that have no greater rank. The old
// entries from its place to `end`, the place of the new entry before it in the loop, move up by `left`, the number of new entries still to be placed.
pub fn push(state: State, path: Path, packet: Packet) -> Served
    ensures { Serves state (pushing (steps_of path) path.leaf_rank packet) (answer_of result.answer) result.state }
{
    let mut after = state;
    let Some(test) = examine(after) else {
        return Served {
            state: after,
            answer: Answer::Refused(Refusal::State),
        };
    };
    let added = match arrivals::walk(after.bytes(), path, packet) {
        Ok(added) => added,
        Err(refusal) => {
            return Served {
                state: after,
                answer: Answer::Refused(refusal),
            };
        }
    };
    if state.frame.limit <= usize::from(test.held) {
        after.refused = state.refused.saturating_add(1);
        return Served {
            state: after,
            answer: Answer::Full(Refusal::Full, after.refused),
        };
    }
    let mut left = added.count;
    let mut begin = test.used;
    let mut end = test.used;
    for node in (0..state.frame.nodes).rev() {
        let next = begin;
        begin -= usize::from(after.lengths[node]);
        if let Some(entry) = added.entries[node] {
            let queue = &after.entries[begin..next];
            let place = begin + queue.partition_point(|old| old.rank <= entry.rank);
            after.entries.copy_within(place..end, place + left);
            left -= 1;
            after.entries[place + left] = entry;
            after.lengths[node] += 1;
            end = place;
        }
    }
    Served {
        state: after,
        answer: Answer::Accepted(u32::from(test.held) + 1),
    }
}
