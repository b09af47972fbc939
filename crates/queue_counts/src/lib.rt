// The counts of a queue tree, packets held and pushes refused; and the test of its state by itself.
#![tactic(auto)]

ghost use Rattle.std.specs.Prelude.{◌≡◌};
ghost use Rattle.pifo_model.specs.Tree.{held};
ghost use Rattle.queue_state.specs.State.{well_formed, tree_of};
ghost use Rattle.queue_counts.specs.Amounts.{amount, checked};

use queue_check::examine;
use queue_state::State;
use refusal::Refusal;

// How many packets a tree holds.
pub fn held(state: State) -> Result<u32, Refusal>
    ensures { result ≡ amount (well_formed state) (held (tree_of state)) }
{
    let test = examine(state).ok_or(Refusal::State)?;
    Ok(test.held.into())
}

// How many pushes a tree has refused because it was full.
pub fn refusals(state: State) -> Result<u32, Refusal>
    ensures { result ≡ amount (well_formed state) state.refused }
{
    examine(state).ok_or(Refusal::State)?;
    Ok(state.refused)
}

// Tests a state (18). A call whose own test comes after that of the state asks this first.
pub fn check_state(state: State) -> Result<(), Refusal>
    ensures { result ≡ checked (well_formed state) }
{
    if examine(state).is_none() {
        return Err(Refusal::State);
    }
    Ok(())
}
