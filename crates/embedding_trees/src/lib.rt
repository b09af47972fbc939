// What the check and the search of a map both compute first for two drawings: whether both are trees, and where their branches end.
#![tactic(auto)]

ghost use Rattle.std.specs.Prelude.{◌≡◌, suc};
ghost use Rattle.refusal.specs.Numbers.{number_of};
ghost use Rattle.topology.specs.Branch.{branch_end};
ghost use Rattle.embedding_trees.specs.Trees.{trees_fault, branch_ends};
ghost use Rattle.embedding_trees.specs.InnerFilling.{FilledFrom};

use refusal::Refusal;
use topology::{SOURCE_NODES, TARGET_NODES, read};
use topology_branches::branch_end;

// Reads the source and, if that is a tree, the target.
pub fn read_both(source: &[u8], target: &[u8]) -> Result<(), Refusal>
    ensures { number_of result ≡ trees_fault source.now target.now }
{
    read(source, SOURCE_NODES)?;
    read(target, TARGET_NODES)
}

// One past the last node of the branch under `node`, by the table for a node that is in it.
fn known_end(bytes: &[u8], ends: &[usize; 64], node: usize) -> usize
    requires { FilledFrom bytes.now ends.now node }
    ensures { result ≡ branch_end bytes.now node }
{
    match ends.get(node) {
        Some(&end) => end,
        None => branch_end(bytes, node),
    }
}

// One past the last node of the branch under `node`, by a table that has the nodes after it: where the last child's branch ends, or right after a
// leaf.
fn end_of(bytes: &[u8], ends: &[usize; 64], node: usize) -> usize
    requires { FilledFrom bytes.now ends.now (suc node) }
    ensures { result ≡ branch_end bytes.now node }
{
    let Some(&children) = bytes.get(node) else {
        return node;
    };
    let mut end = node + 1;
    for _ in 0..children {
        end = known_end(bytes, ends, end);
    }
    end
}

// Where the branches of the nodes 0 to 63 end; for a number past the last node, the number itself. The table is filled from the last node to the
// first, and each entry is read at most once.
pub fn branch_ends(bytes: &[u8]) -> [usize; 64]
    ensures { result ≡ branch_ends bytes.now }
{
    let mut ends = [0usize; 64];
    for node in (0..64).rev() {
        ends[node] = end_of(bytes, &ends, node);
    }
    ends
}
