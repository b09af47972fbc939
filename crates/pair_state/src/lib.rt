// A pair of trees, the source's and the chip's, opened together with the map of the one into the other. The crate `pair_step` says what holds between
// the two from call to call.
#![tactic(auto)]

ghost use Rattle.std.specs.Prelude.{◌≡◌, IfOk};
ghost use Rattle.refusal.specs.Numbers.{number_of};
ghost use Rattle.pair_state.specs.Opening.{both_fault, opened_pair};

use queue_state::State;
use refusal::Refusal;

// The source's tree, the chip's tree, and the map of the one into the other. A tree is a `State` here, and one with disciplines in `chip_open`. The
// map has 32 places whatever the source, as C gets it.
#[derive(Clone, Copy)]
pub struct Pair<T> {
    pub source: T,
    pub chip: T,
    pub map: [u8; 32],
}

// Opens both trees, empty, with one packet limit and the least map. Tested in this order: 1 to 5 of the source, 1 to 5 of the target, 12, 17.
pub fn open(source: &[u8], target: &[u8], limit: usize) -> Result<Pair<State>, Refusal>
    ensures refusal { number_of result ≡ both_fault source.now target.now limit }
    ensures pair { IfOk result (λ p. p ≡ opened_pair source.now target.now limit) }
{
    let map = embedding_search::search(source, target)?;
    let drawn = queue_state::open(source, limit)?;
    let chip = queue_state::open(target, limit)?;
    Ok(Pair {
        source: drawn,
        chip,
        map,
    })
}
