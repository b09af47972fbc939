// The translator: a path in a source's tree carried over to a target's tree by a map.
//
// A step of the source goes from a node to one of its children. In the target it becomes one step at each node from the image of the node down to,
// but without, the image of the child; each leads toward the child's image and has the step's rank. A node that is passed over has the image of the
// next kept node below it: so a step into it leads to that image, and a step out of it gives no target step. The target nodes above the image of a
// lone leaf get a step of rank 0 toward it.
#![tactic(auto)]

ghost use Rattle.std.specs.Prelude.{◌≡◌, ◌++◌};
ghost use Rattle.refusal.specs.Numbers.{number_of};
ghost use Rattle.topology.specs.Reader.{fault, tree};
ghost use Rattle.topology.specs.Address.{depth, route};
ghost use Rattle.pifo_model.specs.Tree.{path_fault};
ghost use Rattle.embedding_model.specs.Check.{map_fault};
ghost use Rattle.pair_model.specs.Carrying.{steps, carry as carrying_carry};
ghost use Rattle.queue_push.specs.Calls.{steps_of, path_of, Plain};
ghost use Rattle.translator.specs.Carry.{Carries};
ghost use Rattle.translator.specs.InnerWays.{Over};

use queue_push::{Path, extended};
use queue_state::Rank;
use refusal::Refusal;
use topology_branches::{child, toward};
use topology_reduction::next_kept;

// The path with a step of the given rank at each node from `from` down to, but without, `to`.
fn descend(bytes: &[u8], path: Path, from: usize, to: usize, rank: Rank) -> Path
    requires { Over bytes.now from to × Plain path × (path.count ≡ depth (tree bytes.now) from) }
    ensures { result ≡ path_of (steps_of path ++ steps rank (route (tree bytes.now) from to)) path.leaf_rank }
{
    let mut extending = path;
    let mut node = from;
    while let Some(next) = toward(bytes, node, to) {
        extending = extended(extending, next.number, rank);
        node = next.node;
    }
    extending
}

// Tests the path in the source's tree, whatever the map: 13, 14.
fn check_path(source: &[u8], path: Path) -> Result<(), Refusal>
    requires { fault 32 source.now ≡ 0 }
    ensures { number_of result ≡ path_fault (tree source.now) (steps_of path) }
{
    let mut node = 0;
    for step in path.steps() {
        node = child(source, node, usize::from(step.child)).ok_or(Refusal::NoSuchChild)?;
    }
    if source[node] != 0 {
        return Err(Refusal::EndsAboveLeaf);
    }
    Ok(())
}

// Walks down the source along the path, and down the target from image to image: first, with rank 0, to the image of the top kept node.
fn walk(source: &[u8], target: &[u8], map: &[u8], path: Path) -> Path
    requires { (map_fault source.now target.now map.now ≡ 0) × (path_fault (tree source.now) (steps_of path) ≡ 0) }
    ensures { result ≡ path_of (carrying_carry (tree source.now) (tree target.now) map.now (steps_of path)) path.leaf_rank }
{
    let mut from = usize::from(map[next_kept(source, 0)]);
    let mut carried = descend(target, Path::new(path.leaf_rank), 0, from, 0);
    let mut node = 0;
    for step in path.steps() {
        let Some(next) = child(source, node, usize::from(step.child)) else {
            return carried;
        };
        let to = usize::from(map[next_kept(source, next)]);
        carried = descend(target, carried, from, to, step.rank);
        from = to;
        node = next;
    }
    carried
}

// Carries a path over: both trees and the map are tested (1 to 11 and 26), then the path as drawn in the source's tree (13, 14).
pub fn carry(source: &[u8], target: &[u8], map: &[u8], path: Path) -> Result<Path, Refusal>
    ensures { Carries source.now target.now map.now path result }
{
    embedding_check::check(source, target, map)?;
    check_path(source, path)?;
    Ok(walk(source, target, map, path))
}
