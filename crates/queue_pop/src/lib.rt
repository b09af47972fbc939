// The pop of the queue tree, a PIFO tree with a packet limit: it takes the tree's state and returns the state after it. The crate `queue_state` has
// the state and its opening, `queue_check` its test, `queue_push` the push.
#![tactic(auto)]

mod departures;

ghost use Rattle.std.specs.Prelude.{◌≡◌};
ghost use Rattle.pifo_model.specs.Machine.{popping};
ghost use Rattle.queue_state.specs.Calls.{answer_of, Serves};
ghost use Rattle.queue_pop.specs.Way.{way_of};

use queue_check::examine;
use queue_state::{Answer, Rank, Served, State};
use refusal::Refusal;

// What a pop takes at a node: the head of its queue. `child` is the child that the head names, 0 at a leaf.
#[repr(C)]
#[derive(Clone, Copy)]
pub struct Taken {
    pub node: u8,
    pub child: u8,
    pub rank: Rank,
}

// The way of a pop: its first `count` places, from the root down; the others are 0. C programs get it, so it is an array beside a count.
#[repr(C)]
#[derive(Clone, Copy)]
pub struct Way {
    pub taken: [Taken; 9],
    pub count: usize,
}

#[derive(Clone, Copy)]
pub struct Popped {
    pub served: Served,
    pub way: Way,
}

// Pops the packet at the head: 18 and 16 are tested in this order.
//
// Each function that takes a state copies it. So the loop is in this function, and one copy is tested and then changed in place. The number of nodes
// is read from the argument, so that the compiler makes no second copy.
//
// The loop closes the gaps: of each queue the last entries, as many as its new length, move down to follow the entries before them.
pub fn pop(state: State) -> Popped
    ensures { Serves state popping (answer_of result.served.answer) result.served.state × (result.way ≡ way_of state) }
{
    let mut after = state;
    let Some(test) = examine(after) else {
        return Popped {
            served: Served {
                state: after,
                answer: Answer::Refused(Refusal::State),
            },
            way: departures::no_way(0),
        };
    };
    let Some(trail) = departures::pop_from(after.bytes(), &after.lengths, &test.heads, 0, 9) else {
        return Popped {
            served: Served {
                state: after,
                answer: Answer::Refused(Refusal::Empty),
            },
            way: departures::no_way(0),
        };
    };
    // A variable: the borrow checker does not cover an array that goes straight from one field to another.
    let lengths = trail.lengths;
    let mut kept = 0;
    let mut end = 0;
    for node in 0..state.frame.nodes {
        let length = usize::from(lengths[node]);
        end += usize::from(after.lengths[node]);
        after.entries.copy_within(end - length..end, kept);
        kept += length;
    }
    after.lengths = lengths;
    Popped {
        served: Served {
            state: after,
            answer: Answer::Departed(trail.packet),
        },
        way: trail.way,
    }
}
