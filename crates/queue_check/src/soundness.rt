// The test of a state (refusal 18): one pass over the queues, which counts in each queue how often each child occurs.
ghost use Rattle.std.specs.Prelude.{◌≡◌, ◌≤◌, ◌<◌, ◌↔◌, true, length, get_or};
ghost use Rattle.topology.specs.Reader.{fault};
ghost use Rattle.queue_state.specs.State.{item_of};
ghost use Rattle.queue_check.specs.InnerSound.{slot, Part, Counted, Tallied, AllMatch};

use super::Test;
use queue_state::{Entry, Item};

// The place in which a node with `children` children counts an item: the child number, 0 for a packet; none if the node may not hold the item.
fn slot(item: Item, children: u8) -> Option<usize>
    ensures { result ≡ slot children (item_of item) }
{
    match item {
        Item::Child(index) if 1 <= index && index <= children => Some(usize::from(index)),
        Item::Packet(_) if children == 0 => Some(0),
        _ => None,
    }
}

// The `size` entries from place `start` on; none if they do not end within the array.
fn queue(entries: &[Entry; 2304], start: usize, size: u16) -> Option<&[Entry]>
    requires { start ≤ 2304 }
    ensures { Part entries.now start size result }
{
    entries.get(start..start + usize::from(size))
}

// How often each child occurs in the queue of a node with `children` children; none if a rank falls in the queue, or the node may not hold an item.
#[tactic(auto, using(crate::proofs::Count::advance))]
fn count(queue: &[Entry], children: u8) -> Option<[u16; 9]>
    requires { (children ≤ 8) × (length queue.now ≤ 2304) }
    ensures { Counted queue.now children result }
{
    let mut counts = [0u16; 9];
    let mut last = 0;
    for entry in queue {
        if entry.rank < last {
            return None;
        }
        counts[slot(entry.item, children)?] += 1;
        last = entry.rank;
    }
    Some(counts)
}

// Whether each child of `node` occurs in its queue as often as that child's own queue is long.
#[tactic(auto, using(topology::proofs::Lookup::valid_byte, topology::proofs::Lookup::valid_length, topology::proofs::Lookup::start_lt))]
fn children_match(bytes: &[u8], counts: &[u16; 9], lengths: &[u16; 64], node: usize) -> bool
    requires { (fault 64 bytes.now ≡ 0) × (node < length bytes.now) }
    ensures { (result ≡ true) ↔ AllMatch bytes.now counts.now lengths.now node (get_or bytes.now node 0) }
{
    let mut child = node + 1;
    for i in 0..usize::from(bytes[node]) {
        if counts[i + 1] != lengths[child] {
            return false;
        }
        child = topology_branches::branch_end(bytes, child);
    }
    true
}

// Tests each queue: it lies within the array, no rank falls in it, its node may hold its items, and each child occurs in it as often as that child's
// own queue is long. Then tests that the root's queue is within the limit.
#[tactic(auto, using(topology::proofs::Lookup::valid_byte, topology::proofs::Lookup::valid_length))]
pub(crate) fn tally(
    bytes: &[u8],
    lengths: &[u16; 64],
    entries: &[Entry; 2304],
    limit: usize,
) -> Option<Test>
    requires { fault 64 bytes.now ≡ 0 }
    ensures { Tallied bytes.now lengths.now entries.now limit result }
{
    let mut heads = [None; 64];
    let mut start = 0;
    for (node, &children) in bytes.iter().enumerate() {
        let queue = queue(entries, start, lengths[node])?;
        heads[node] = queue.first().copied();
        let counts = count(queue, children)?;
        if !children_match(bytes, &counts, lengths, node) {
            return None;
        }
        start += queue.len();
    }
    let held = lengths[0];
    if limit < usize::from(held) {
        return None;
    }
    Some(Test {
        held,
        used: start,
        heads,
    })
}
