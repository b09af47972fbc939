// Many calls of the queue tree at once, for the benchmark in `tests/`. A state is passed as plain numbers. There is no contract: these functions are
// proved to be safe and to end.
#![tactic(auto)]

use exports_plain_state::PlainState;
use queue_push::Path;
use queue_state::State;

// The path of a round: the first in even rounds, the second in odd ones.
fn path_in(even: Path, odd: Path, number: u32) -> Path {
    if number % 2 == 0 { even } else { odd }
}

// One round of many: a pop, then a push of a packet with the round's number.
fn round(state: State, path: Path, number: u32) -> State {
    let popped = queue_pop::pop(state);
    let pushed = queue_push::push(popped.served.state, path, number);
    pushed.state
}

// A pop and a push in each round, along the first path in even rounds and the second in odd ones.
#[unsafe(no_mangle)]
pub extern "C" fn linduvar_rounds(
    state: PlainState,
    first: Path,
    second: Path,
    rounds: u32,
) -> PlainState {
    let mut current: State = state.into();
    for i in 0..rounds {
        let path = path_in(first, second, i);
        current = round(current, path, i);
    }
    current.into()
}
