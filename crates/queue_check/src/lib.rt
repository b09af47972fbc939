// The test of a queue tree's state (18).
#![tactic(auto)]

mod soundness;

ghost use Rattle.queue_check.specs.Tests.{Tests};

use queue_state::{Entry, State};

// What the test of a well-formed state finds: how many packets (`held`) and entries (`used`) it holds, and the head of each queue.
#[derive(Clone, Copy)]
pub struct Test {
    pub held: u16,
    pub used: usize,
    pub heads: [Option<Entry>; 64],
}

// Tests a state, topology and limit included; `None` if it is not well formed.
pub fn examine(state: State) -> Option<Test>
    ensures { Tests state result }
{
    let frame = &state.frame;
    let bytes = frame.topology.get(..frame.nodes)?;
    queue_state::check_opening(bytes, frame.limit).ok()?;
    soundness::tally(bytes, &state.lengths, &state.entries, frame.limit)
}
