// The opening of a queue tree, the questions for its counts, and the number of the layout of all structs, for a program in C or Rust: `tests/` links
// and compares them. A state is passed as plain numbers.
#![tactic(auto)]

ghost use Rattle.std.specs.Prelude.{◌≡◌};
ghost use Rattle.pifo_model.specs.Tree.{held};
ghost use Rattle.queue_state.specs.Opening.{open_fault, opened_state};
ghost use Rattle.queue_counts.specs.Amounts.{amount};
ghost use Rattle.queue_state.specs.State.{well_formed, tree_of};
ghost use Rattle.exports_plain_state.specs.Plain.{state_of};
ghost use Rattle.exports_plain_answers.specs.Answers.{plain_amount};
ghost use Rattle.exports_queue_state.specs.Answers.{layout, plain_opening, plain_opened};

use exports_plain_answers::PlainAmount;
use exports_plain_state::PlainState;
use queue_state::{State, no_tree};
use refusal::Refusal;

// The answer to an opening: the empty tree and 0; or a state of zeros, on which every call is refused by 18, and the refusal's number.
#[repr(C)]
#[derive(Clone, Copy)]
pub struct PlainOpened {
    pub state: PlainState,
    pub refusal: u8,
}

// C gets a state of zeros in place of none.
impl From<Result<State, Refusal>> for PlainOpened {
    ghost from_gives = { λ opening plain. plain ≡ plain_opening opening };

    fn from(opening: Result<State, Refusal>) -> PlainOpened {
        match opening {
            Ok(state) => PlainOpened {
                state: state.into(),
                refusal: 0,
            },
            Err(refusal) => PlainOpened {
                state: no_tree().into(),
                refusal: refusal.into(),
            },
        }
    }
}

// The layout's number: it rises when a struct that C or Rust shares is laid out anew, and the header has the one that it describes.
const LAYOUT: usize = 2;

// Which layout the structs of all calls have, so that a program can compare it with its header's.
#[unsafe(no_mangle)]
pub extern "C" fn linduvar_layout() -> usize
    ensures { result ≡ layout }
{
    LAYOUT
}

// Opens an empty tree with a packet limit.
#[unsafe(no_mangle)]
pub extern "C" fn linduvar_open(bytes: &[u8], limit: usize) -> PlainOpened
    ensures { result ≡ plain_opened (open_fault bytes.now limit) (opened_state bytes.now limit) }
{
    queue_state::open(bytes, limit).into()
}

// How many packets a tree holds.
#[unsafe(no_mangle)]
pub extern "C" fn linduvar_held(state: PlainState) -> PlainAmount
    ensures { result ≡ plain_amount (amount (well_formed (state_of state)) (held (tree_of (state_of state)))) }
{
    queue_counts::held(state.into()).into()
}

// How many pushes a tree has refused because it was full.
#[tactic(auto, unfolding(exports_plain_state::specs::Plain::state_of))]
#[unsafe(no_mangle)]
pub extern "C" fn linduvar_refusals(state: PlainState) -> PlainAmount
    ensures { result ≡ plain_amount (amount (well_formed (state_of state)) state.refused) }
{
    queue_counts::refusals(state.into()).into()
}
