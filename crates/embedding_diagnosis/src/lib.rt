// Why a drawing has no map: the branch of it that fits nowhere on the chip, and what the branch lacks.
//
// Each kept node, from the last to the first that fits nowhere, is tried at each target node where it may go, by a search of the one branch in the
// other: at most 32 * 64 searches, each of smaller trees than the whole. docs/PERFORMANCE.md has the slowest pair that was found.
//
// The source and the target are two parameters, as `why` has them and `least_map` takes them, and most functions use one of the two.
#![tactic(auto)]

ghost use Rattle.std.specs.Prelude.{◌≡◌};
ghost use Rattle.topology.specs.Branch.{branch_part};
ghost use Rattle.embedding_diagnosis.specs.Misfit.{is_kept, kept_above, may_go, fits_at, fits_nowhere};
ghost use Rattle.embedding_diagnosis.specs.Misfit.{misfit as misfit_misfit};
ghost use Rattle.embedding_diagnosis.specs.Diagnosis.{leaves, most_leaves, lack_at, diagnosis};
ghost use Rattle.embedding_diagnosis.specs.Diagnosis.{deepest as diagnosis_deepest};

use embedding_least::least_map;
use refusal::Refusal;
use topology_branches::{branch, is_above};
use topology_places::depth;

// There is a map; or a tree is at fault; or the branch under a node fits nowhere. Then the node stands first. Two numbers after it are
// what is needed and what there is.
#[derive(Clone, Copy)]
pub enum Diagnosis {
    Loads,
    Refused(Refusal),
    // The node is a leaf. It has the first number of kept nodes above it, and no chip node has more than the second number of nodes above it.
    TooDeep(usize, usize, usize),
    // The branch has the first number of leaves, and a branch of the chip where the node may go has at most the second.
    TooManyLeaves(usize, usize, usize),
    // Each branch below the node fits somewhere, but not all of them together.
    NotTogether(usize),
}

// Whether a node is kept: no inner node with one child.
#[tactic(auto, unfolding(crate::specs::Misfit::is_kept))]
fn is_kept(bytes: &[u8], node: usize) -> bool
    ensures { result ≡ is_kept bytes.now node }
{
    bytes.get(node).is_none_or(|&children| children != 1)
}

// How many kept nodes lie above `node`.
fn kept_above(source: &[u8], node: usize) -> usize
    ensures { result ≡ kept_above source.now node }
{
    (0..node)
        .filter(|&a| is_kept(source, a) && is_above(source, a, node))
        .count()
}

// Whether a source node with `above` kept nodes above it may go to target node `t`.
#[tactic(auto, unfolding(crate::specs::Misfit::may_go))]
fn may_go(above: usize, target: &[u8], t: usize) -> bool
    ensures { result ≡ may_go above target.now t }
{
    if above == 0 {
        return t == 0;
    }
    above <= depth(target, t)
}

// The branch under a node, as a tree by itself; no bytes if there is none.
fn part(bytes: &[u8], node: usize) -> &[u8]
    ensures { result.now ≡ branch_part bytes.now node }
{
    branch(bytes, node).unwrap_or(&[])
}

// Whether the branch under source node `s`, as a drawing by itself, has a map into the branch under target node `t`.
fn fits_at(source: &[u8], target: &[u8], s: usize, t: usize) -> bool
    ensures { result ≡ fits_at source.now target.now s t }
{
    least_map(part(source, s), part(target, t)).is_ok()
}

// Whether the branch under source node `s` fits nowhere.
fn fits_nowhere(source: &[u8], target: &[u8], s: usize) -> bool
    ensures { result ≡ fits_nowhere source.now target.now s }
{
    let above = kept_above(source, s);
    (0..target.len()).all(|t| !(may_go(above, target, t) && fits_at(source, target, s, t)))
}

// The last kept node in preorder whose branch fits nowhere; 0 if there is none.
fn misfit(source: &[u8], target: &[u8]) -> usize
    ensures { result ≡ misfit_misfit source.now target.now }
{
    (0..source.len())
        .rfind(|&s| is_kept(source, s) && fits_nowhere(source, target, s))
        .unwrap_or(0)
}

// The depth of the deepest node.
fn deepest(target: &[u8]) -> usize
    ensures { result ≡ diagnosis_deepest target.now }
{
    (0..target.len())
        .map(|t| depth(target, t))
        .max()
        .unwrap_or(0)
}

// How many leaves a tree has.
fn leaves(bytes: &[u8]) -> usize
    ensures { result ≡ leaves bytes.now }
{
    bytes.iter().filter(|&&children| children == 0).count()
}

// The most leaves of a branch of the target where a source node with `above` kept nodes above it may go.
fn most_leaves(above: usize, target: &[u8]) -> usize
    ensures { result ≡ most_leaves above target.now }
{
    (0..target.len())
        .filter(|&t| may_go(above, target, t))
        .map(|t| leaves(part(target, t)))
        .max()
        .unwrap_or(0)
}

// What the branch under source node `s` lacks if it fits nowhere.
#[tactic(auto, unfolding(crate::specs::Diagnosis::lack_at))]
fn lack_at(source: &[u8], target: &[u8], s: usize) -> Diagnosis
    ensures { result ≡ lack_at source.now target.now s }
{
    let above = kept_above(source, s);
    let is_leaf = source.get(s).is_none_or(|&children| children == 0);
    if is_leaf {
        return Diagnosis::TooDeep(s, above, deepest(target));
    }
    let needed = leaves(part(source, s));
    let most = most_leaves(above, target);
    if most < needed {
        return Diagnosis::TooManyLeaves(s, needed, most);
    }
    Diagnosis::NotTogether(s)
}

// Why a drawing has no map.
pub fn why(source: &[u8], target: &[u8]) -> Diagnosis
    ensures { result ≡ diagnosis source.now target.now }
{
    let Err(refusal) = least_map(source, target) else {
        return Diagnosis::Loads;
    };
    // One `match` with the arms `Ok(_)`, `Err(Refusal::NoMap)` and `Err(refusal)` was tried: the check does not learn in the last arm that the refusal
    // is another than `NoMap`, and the proof did not close.
    match refusal {
        Refusal::NoMap => lack_at(source, target, misfit(source, target)),
        _ => Diagnosis::Refused(refusal),
    }
}
