// The state of a queue tree, its opening, and the answers to calls on it. A state is passed by value. The crate `queue_check` has the test of a state
// (18), `queue_counts` its counts; `queue_push` and `queue_pop` have push and pop.
//
// The queues are stored one after another in one array, in the order of their nodes and each from its head on; a second array has their lengths.
// There are at most 2304 entries: 256 packets, each with entries at up to 9 nodes. With a vector for each queue a state would be seven times as large.
#![tactic(auto)]

ghost use Rattle.std.specs.Prelude.{◌≡◌, ◌≤◌, length, take, IfOk};
ghost use Rattle.refusal.specs.Numbers.{number_of};
ghost use Rattle.queue_state.specs.State.{bytes};
ghost use Rattle.queue_state.specs.Opening.{open_fault, opened_state, no_tree};

use refusal::Refusal;
use topology::TARGET_NODES;

pub type Rank = u64;

pub type Packet = u32;

// The item of an entry: a child number at an inner node, a packet at a leaf.
#[derive(Clone, Copy)]
pub enum Item {
    Child(u8),
    Packet(Packet),
}

#[derive(Clone, Copy)]
pub struct Entry {
    pub rank: Rank,
    pub item: Item,
}

// The part of a state that no call changes. It has plain numbers only, so that C and Rust can use it as it is.
#[repr(C)]
#[derive(Clone, Copy)]
pub struct Frame {
    pub topology: [u8; 64],
    pub nodes: usize,
    pub limit: usize,
}

impl Frame {
    // The bytes of the topology.
    pub fn bytes(&self) -> &[u8]
        ensures { result.now ≡ take self.now.nodes self.now.topology }
    {
        &self.topology[..self.nodes.min(TARGET_NODES)]
    }
}

// The fields stand in an order in which no byte lies idle between two of them: idle bytes cost copies (docs/PERFORMANCE.md, "The floor").
#[derive(Clone, Copy)]
pub struct State {
    pub frame: Frame,
    pub lengths: [u16; 64],
    pub entries: [Entry; 2304],
    pub refused: u32,
}

impl State {
    // The bytes of the topology.
    #[tactic(auto, unfolding(crate::specs::State::bytes))]
    pub fn bytes(&self) -> &[u8]
        ensures { result.now ≡ bytes self.now }
    {
        self.frame.bytes()
    }
}

// The answer to a call: the number of packets held after a push; the packet that departs; a refusal; or, for a push without room, the refusal
// and the new count of refusals.
#[derive(Clone, Copy)]
pub enum Answer {
    Accepted(u32),
    Departed(Packet),
    Refused(Refusal),
    Full(Refusal, u32),
}

// The state after a call, and the answer to it.
#[derive(Clone, Copy)]
pub struct Served {
    pub state: State,
    pub answer: Answer,
}

// Tests an opening: 1 to 5 are tested, then 17.
#[tactic(auto, using(refusal::proofs::Numbers::refused_first, refusal::proofs::Numbers::accepted_first), unfolding(crate::specs::Opening::open_fault))]
pub fn check_opening(bytes: &[u8], limit: usize) -> Result<(), Refusal>
    ensures { number_of result ≡ open_fault bytes.now limit }
{
    topology::read(bytes, TARGET_NODES)?;
    queue_limit::check_limit(limit)
}

// The state with no entries.
fn empty(bytes: &[u8], limit: usize) -> State
    requires { length bytes.now ≤ 64 }
    ensures { result ≡ opened_state bytes.now limit }
{
    let mut topology = [0u8; 64];
    topology[..bytes.len()].copy_from_slice(bytes);
    State {
        frame: Frame {
            topology,
            nodes: bytes.len(),
            limit,
        },
        lengths: [0u16; 64],
        entries: [Entry {
            rank: 0,
            item: Item::Child(0),
        }; 2304],
        refused: 0,
    }
}

// Opens an empty tree with a packet limit.
#[tactic(auto, using(crate::proofs::OpenedState::short))]
pub fn open(bytes: &[u8], limit: usize) -> Result<State, Refusal>
    ensures refusal { number_of result ≡ open_fault bytes.now limit }
    ensures state { IfOk result (λ s. s ≡ opened_state bytes.now limit) }
{
    check_opening(bytes, limit)?;
    Ok(empty(bytes, limit))
}

// What C gets in place of a state if an opening is refused: zeros, on which every call is refused by 18.
#[tactic(auto, unfolding(crate::specs::Opening::no_tree, crate::specs::Opening::opened_state))]
pub fn no_tree() -> State
    ensures { result ≡ no_tree }
{
    empty(&[], 0)
}
