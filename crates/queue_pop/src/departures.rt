// A pop: the way down from the root along the heads of the queues.
ghost use Rattle.std.specs.Prelude.{◌≡◌, ℕ, ◌≤◌, ◌<◌, length, replicate, get_or, None, IsSome};
ghost use Rattle.topology.specs.Reader.{fault};
ghost use Rattle.queue_pop.specs.Way.{no_taken};
ghost use Rattle.queue_pop.specs.InnerDepartures.{Pops};

use super::{Taken, Way};
use queue_state::{Entry, Item, Packet};

// A pop from some node down: the packet that departs, what is taken on the way to the leaf, and the lengths of all queues after it.
#[derive(Clone, Copy)]
pub(crate) struct Trail {
    pub packet: Packet,
    pub way: Way,
    pub lengths: [u16; 64],
}

// A way of `count` nodes, with nothing taken.
pub(crate) fn no_way(count: usize) -> Way
    ensures { result ≡ record { taken = replicate 9 no_taken; count = count } }
{
    Way {
        taken: [Taken {
            node: 0,
            child: 0,
            rank: 0,
        }; 9],
        count,
    }
}

// Pops from a node down, through at most `left` nodes: takes the head of the node's queue, which is a packet or names the child to go on at.
pub(crate) fn pop_from(
    bytes: &[u8],
    lengths: &[u16; 64],
    heads: &[Option<Entry>; 64],
    node: usize,
    left: usize,
) -> Option<Trail>
    requires valid { fault 64 bytes.now ≡ 0 }
    requires there { node < length bytes.now }
    requires short { left ≤ 9 }
    requires filled { (n : ℕ) → n < length bytes.now → IsSome (get_or heads.now n None) → 0 < get_or lengths.now n 0 }
    ensures { Pops bytes.now lengths.now heads.now node left result }
{
    if left == 0 {
        return None;
    }
    let head = heads[node]?;
    let (mut trail, child) = match head.item {
        Item::Packet(packet) => {
            let trail = Trail {
                packet,
                way: no_way(10 - left),
                lengths: *lengths,
            };
            (trail, 0)
        }
        Item::Child(index) => {
            let child = topology_branches::child(bytes, node, usize::from(index))?;
            (pop_from(bytes, lengths, heads, child, left - 1)?, index)
        }
    };
    // The cast loses nothing, and a `try_from` would give a Result that is never an error.
    trail.way.taken[9 - left] = Taken {
        node: node as u8,
        child,
        rank: head.rank,
    };
    trail.lengths[node] = lengths[node] - 1;
    Some(trail)
}
