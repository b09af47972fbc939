// Pushes and pops of a queue tree for a program in C or Rust: `tests/` links and compares them. A state is passed as plain numbers.
#![tactic(auto)]

ghost use Rattle.std.specs.Prelude.{◌≡◌};
ghost use Rattle.pifo_model.specs.Machine.{pushing, popping};
ghost use Rattle.queue_push.specs.Calls.{steps_of};
ghost use Rattle.queue_pop.specs.Way.{way_of};
ghost use Rattle.exports_plain_state.specs.Plain.{state_of};
ghost use Rattle.exports_queue_calls.specs.Answers.{plain_served, ServesPlain};

use exports_plain_answers::{PlainReply, answer_refusal, answer_value};
use exports_plain_state::PlainState;
use queue_pop::Way;
use queue_push::Path;
use queue_state::{Packet, Served};

// The answer to a call: the state after it; a refusal's number or 0; and a value: the packets held after a push, the packet that departs, or the new
// count of refusals for a push without room; else 0.
#[repr(C)]
#[derive(Clone, Copy)]
pub struct PlainAnswer {
    pub state: PlainState,
    pub refusal: u8,
    pub value: u32,
}

// The answer to a pop, and the way of the packet that departs.
#[repr(C)]
#[derive(Clone, Copy)]
pub struct PlainPopped {
    pub answer: PlainAnswer,
    pub way: Way,
}

impl From<Served> for PlainAnswer {
    ghost from_gives = { λ served plain. plain ≡ plain_served served };

    fn from(served: Served) -> PlainAnswer {
        let reply = PlainReply::from(served.answer);
        PlainAnswer {
            state: served.state.into(),
            refusal: answer_refusal(reply),
            value: answer_value(reply),
        }
    }
}

// Pushes a packet along a path.
#[unsafe(no_mangle)]
pub extern "C" fn linduvar_push(state: PlainState, path: Path, packet: Packet) -> PlainAnswer
    ensures { ServesPlain state (pushing (steps_of path) path.leaf_rank packet) result }
{
    queue_push::push(state.into(), path, packet).into()
}

// Pops the packet at the head.
#[unsafe(no_mangle)]
pub extern "C" fn linduvar_pop(state: PlainState) -> PlainPopped
    ensures { ServesPlain state popping result.answer × (result.way ≡ way_of (state_of state)) }
{
    let popped = queue_pop::pop(state.into());
    PlainPopped {
        answer: popped.served.into(),
        way: popped.way,
    }
}
