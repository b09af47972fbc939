// The check of a map between two trees.
//
// It tests each rule over all nodes or pairs of nodes, with tables of where the branches end: a few thousand steps at the most. The nodes are
// those of the reduced drawing, whose bytes are the source's without its bytes 1 (paper 02, 2.2).
//
// The source, the target and the map are three parameters, as `check` has them, and most tests use one or two of them. That the map is as long as the
// source holds first of the two as given and then of the two reduced: a struct with that invariant would be built twice, for tests of a few lines.
#![tactic(auto)]

ghost use Rattle.std.specs.Prelude.{◌≡◌, ◌≤◌, ◌<◌, true, length};
ghost use Rattle.refusal.specs.Numbers.{number_of};
ghost use Rattle.topology.specs.Reader.{fault};
ghost use Rattle.embedding_model.specs.Check.{are_nodes, rule1, rule2, rule3, rule4, images_fault, are_marked, list_fault, map_fault};
ghost use Rattle.embedding_check.specs.InnerTests.{fresh, above_by, alike, Sized, Tabled};

use embedding_trees::{branch_ends, read_both};
use refusal::Refusal;
use topology_reduction::{PASSED_OVER, restrict};

// Whether every image is a target node.
fn are_nodes(target: &[u8], map: &[u8]) -> bool
    ensures { result ≡ are_nodes target.now (length map.now) map.now }
{
    map.iter().all(|&image| usize::from(image) < target.len())
}

// Whether no node before `a` has a's image.
fn is_fresh(map: &[u8], a: usize) -> bool
    requires { a < length map.now }
    ensures { result ≡ fresh map.now a }
{
    map[..a].iter().all(|&earlier| earlier != map[a])
}

// Rule 1: two source nodes never have the same image.
fn keeps_apart(map: &[u8]) -> bool
    ensures { result ≡ rule1 (length map.now) map.now }
{
    (0..map.len()).all(|a| is_fresh(map, a))
}

// Rule 2: the root goes to the root, unless it is a leaf, which is then the only node.
#[tactic(auto, unfolding(embedding_model::specs::Check::rule2))]
fn keeps_root(source: &[u8], map: &[u8]) -> bool
    requires { (0 < length source.now) × (0 < length map.now) }
    ensures { result ≡ rule2 source.now map.now }
{
    map[0] == 0 || source[0] == 0
}

// Rule 3: a leaf goes to a leaf.
fn keeps_leaves(source: &[u8], target: &[u8], map: &[u8]) -> bool
    requires { (length map.now ≡ length source.now) × (are_nodes target.now (length map.now) map.now ≡ true) }
    ensures { result ≡ rule3 source.now target.now (length map.now) map.now }
{
    source.iter().zip(map).all(|(&children, &image)| children != 0
        || target[usize::from(image)] == 0)
}

// Whether node `a` is node `b` or lies above it, by the table of branch ends.
fn above(ends: &[usize; 64], a: usize, b: usize) -> bool
    requires { a < 64 }
    ensures { result ≡ above_by ends.now a b }
{
    a <= b && b < ends[a]
}

// Whether rule 4 holds of node `a` and each source node.
fn stands_alike(source: &[usize; 64], target: &[usize; 64], map: &[u8], a: usize) -> bool
    requires { (a < length map.now) × Tabled map.now }
    ensures { result ≡ alike source.now target.now map.now a }
{
    let image = usize::from(map[a]);
    map.iter().enumerate().all(|(b, &other)| above(source, a, b)
        == above(target, image, usize::from(other)))
}

// Rule 4: the first of two nodes is the second or lies above it if and only if the same holds of their images.
fn keeps_order(source: &[u8], target: &[u8], map: &[u8]) -> bool
    requires { Sized source.now target.now map.now }
    ensures { result ≡ rule4 source.now target.now (length map.now) map.now }
{
    let source_ends = branch_ends(source);
    let target_ends = branch_ends(target);
    (0..map.len()).all(|a| stands_alike(&source_ends, &target_ends, map, a))
}

// Tests a list of images, one for each node of a drawing without passed nodes, in the order of the refusals.
#[tactic(auto, unfolding(embedding_model::specs::Check::images_fault))]
fn check_images(source: &[u8], target: &[u8], map: &[u8]) -> Result<(), Refusal>
    requires { (length map.now ≡ length source.now) × (0 < length source.now) × (length source.now ≤ 64) × (length target.now ≤ 64) }
    ensures { number_of result ≡ images_fault source.now target.now map.now }
{
    if !are_nodes(target, map) {
        return Err(Refusal::NoSuchImage);
    }
    if !keeps_apart(map) {
        return Err(Refusal::SharedImage);
    }
    if !keeps_root(source, map) {
        return Err(Refusal::RootMoved);
    }
    if !keeps_leaves(source, target, map) {
        return Err(Refusal::LeafMoved);
    }
    if !keeps_order(source, target, map) {
        return Err(Refusal::OrderBroken);
    }
    Ok(())
}

// Whether every node that is passed over has 255 as its image.
fn are_marked(source: &[u8], map: &[u8]) -> bool
    requires { length map.now ≡ length source.now }
    ensures { result ≡ are_marked source.now map.now }
{
    source.iter().zip(map).all(|(&children, &image)| children != 1 || image == PASSED_OVER)
}

// Tests a list as a map between two trees, in the order of the refusals. The rules are tested on the reduced drawing and the images of the kept
// nodes.
#[tactic(auto, unfolding(embedding_model::specs::Check::list_fault))]
fn check_list(source: &[u8], target: &[u8], map: &[u8]) -> Result<(), Refusal>
    requires { (fault 32 source.now ≡ 0) × (length target.now ≤ 64) }
    ensures { number_of result ≡ list_fault source.now target.now map.now }
{
    if map.len() != source.len() {
        return Err(Refusal::MapLength);
    }
    if !are_marked(source, map) {
        return Err(Refusal::PassedNode);
    }
    let kept = restrict(source, source);
    let images = restrict(source, map);
    check_images(kept.as_slice(), target, images.as_slice())
}

// Checks a map: both trees are read first, then the list is tested.
#[tactic(auto, unfolding(embedding_model::specs::Check::map_fault))]
pub fn check(source: &[u8], target: &[u8], map: &[u8]) -> Result<(), Refusal>
    ensures { number_of result ≡ map_fault source.now target.now map.now }
{
    read_both(source, target)?;
    check_list(source, target, map)
}
