// A push: the walk down its path, and where each new entry goes.
ghost use Rattle.std.specs.Prelude.{◌≡◌, length};
ghost use Rattle.topology.specs.Reader.{fault, tree};
ghost use Rattle.queue_push.specs.InnerArrivals.{Walked};
ghost use Rattle.queue_push.specs.Calls.{steps_of};

use super::Path;
use queue_state::{Entry, Item, Packet};
use refusal::Refusal;

// The new entry of each node on a path, and how many there are: the walk knows the number at its end, and to count them again would be a loop more.
#[derive(Clone, Copy)]
pub(crate) struct Added {
    pub entries: [Option<Entry>; 64],
    pub count: usize,
}

// Walks down from the root along the path.
pub(crate) fn walk(bytes: &[u8], path: Path, packet: Packet) -> Result<Added, Refusal>
    requires { fault 64 bytes.now ≡ 0 }
    ensures { Walked (tree bytes.now) (length bytes.now) (steps_of path) path.leaf_rank packet result }
{
    let mut entries = [None; 64];
    let steps = path.steps();
    let mut node = 0;
    for step in steps {
        let child = topology_branches::child(bytes, node, usize::from(step.child)).ok_or(
            Refusal::NoSuchChild,
        )?;
        entries[node] = Some(Entry {
            rank: step.rank,
            item: Item::Child(step.child),
        });
        node = child;
    }
    if bytes[node] != 0 {
        return Err(Refusal::EndsAboveLeaf);
    }
    entries[node] = Some(Entry {
        rank: path.leaf_rank,
        item: Item::Packet(packet),
    });
    Ok(Added {
        entries,
        count: steps.len() + 1,
    })
}
