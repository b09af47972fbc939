// The search for the least map between two trees.
//
// It works on the reduced drawing of the source (paper 02, 2.2). A lone leaf goes to the first leaf of the target. For any other drawing the search
// fills a table from the last source node to the first. The entry for a source node s and a target node t is the least list of images of the
// children of s below t, packed into one number with the first child in the highest place, so that numbers are ordered as their lists are. The
// branches of unrelated nodes are disjoint intervals of node numbers. So a scan over the target nodes p, from the end of t's branch down to t + 1,
// places the children one at a time: for each set of children, none of them goes to p, or one does and the others are placed from the end of p's
// branch on. The map is then read from the table, from the root down.
//
// At one node p, a source node with k children takes 2^k steps, and 2^(k - 1) more for each child, which is tried only in the sets that contain it:
// together (k + 2) * 2^(k - 1). A target node lies in the branches of at most 9 nodes, so all scans for one source node visit at most 9 * 64 nodes.
// They visit fewer if branches end at the same place, since a scan continues the previous one if that began at the same end. The root is tried only
// at the target's root. The sum of all k is at most 31 and each is at most 8, so the sum of (k + 2) * 2^(k - 1) is below 4500: about two and a half
// million steps in all, about 1 ms on the slowest pair that was found.
//
// The contract of `least_map` is `Searches` in specs/Answers. It rests on embedding_model/specs/Least.
//
// The source and the target are two parameters, as callers of `least_map` have them, and most functions use one of the two. `TreeBytes` says in one
// word that a slice is a tree: each function would read a struct with that invariant as a slice again. `end` and `sets` are bounds of loops and parts
// of an index: with a type of its own each would be turned into a number at every use.
// The tables are flat arrays, since the laws in embedding_program are stated of these (`best_by`, `cell` in specs/InnerTables).
#![tactic(auto)]

ghost use Rattle.std.specs.Prelude.{◌≡◌, Some, ◌≤◌, ◌<◌, ◌*◌, ◌+◌, ◌-◌, ℕ, min, ◌≢◌, [], ◌∷◌, length, get_or};
ghost use Rattle.topology.specs.Reader.{tree};
ghost use Rattle.topology.specs.InnerEnds.{Ends};
ghost use Rattle.embedding_model.specs.FirstLeaf.{first_leaf};
ghost use Rattle.embedding_model.specs.Least.{least_map};
ghost use Rattle.embedding_program.specs.InnerSets.{power, no_images};
ghost use Rattle.embedding_program.specs.InnerTables.{best_by, end_by, cell, Alternation, RowTried, RowCopied, RowFilled};
ghost use Rattle.embedding_program.specs.InnerTables.{LastRow, Scanned, Started, BranchOf, Branches, PlacedBelow, TreeBytes, TreePair};
ghost use Rattle.embedding_program.specs.InnerMeaning.{KidsOf, BestEntryBy, Entries, reach_by, Truth, Different, Put, ReadTo};
ghost use Rattle.embedding_least.specs.InnerImages.{in_places};
ghost use Rattle.embedding_least.specs.Answers.{Searches};

use embedding_trees::{branch_ends, read_both};
use refusal::Refusal;
use topology_reduction::{restrict, spread_out};

// The number for no list of images: greater than that of any list of 8 images, each below 64. It is no `Option`, since of two entries the least counts,
// and `None` is less than any list.
const NONE: u64 = 281474976710656;

// The children of a source node by place: the last child has place 0, the first the highest. They fill an array from the place of the first, which is
// met first, and callers cut the array to the node's children: an `ArrayVec` would be filled from the last child, which is met last.
fn kids_of(source: &[u8], ends: &[usize; 64], node: usize) -> [usize; 8]
    requires { TreeBytes 32 source.now × Ends source.now ends.now × (node < length source.now) }
    ensures { KidsOf (tree source.now) node result }
{
    let mut kids = [0usize; 8];
    let mut next = node + 1;
    // by place, and so by index: the children are met from the highest place down
    for place in (0..usize::from(source[node])).rev() {
        kids[place] = next;
        next = ends[next];
    }
    kids
}

// The children of a source node, by place, and what placing them rests on: the table's entries for them, and where the target's branches end.
#[derive(Drop)]
struct Family<'a> {
    best: &'a [u64; 2048],
    ends: &'a [usize; 64],
    kids: &'a [usize],
    ghost few: { length kids.now ≤ 8 },
    ghost small: { (j : ℕ) → get_or kids.now j 0 < 32 },
    ghost inside: { (x : ℕ) → get_or ends.now x 0 ≤ 64 },
}

impl Family<'_> {
    // The number of sets of children.
    fn sets(&self) -> usize
        ensures value { result ≡ power (length self.now.kids.now) }
        ensures within { (0 < result) × (result ≤ 256) }
    {
        1 << self.kids.len()
    }
}

// The scans for one source node. Row p has 256 entries, one for each set of children. The last scan went from `hi` down to row `low`.
#[derive(Drop)]
struct Scan {
    rows: [u64; 16640],
    low: usize,
    hi: usize,
    ghost bound: { (i : ℕ) → get_or rows i 0 ≤ no_images },
}

impl Scan {
    // The entry of row `p` for a set after a child of the set, of the given power, is tried at p: `here` is the child's part of the number, and the
    // other children are placed from the end of p's branch on.
    fn tried(&self, p: usize, end: usize, set: usize, power: usize, here: u64) -> u64
        requires { (p < 64) × (end ≤ 64) × (set < 256) × (power ≤ set) × (here ≤ no_images) }
        ensures { result ≡ min (cell self.now.rows p set) (here + cell self.now.rows end (set - power)) }
    {
        let other = here + self.rows[end * 256 + (set - power)];
        self.rows[p * 256 + set].min(other)
    }

    // Tries a child at `p` in every entry of row p whose set contains it. Half of the sets do: `power` sets without the child and `power` sets with
    // it alternate.
    fn try_child(&mut self, p: usize, end: usize, sets: usize, power: usize, here: u64)
        requires { (p < end) × (end ≤ 64) × Alternation sets power × (here ≤ no_images) }
        ensures { RowTried self.old.rows p end power here sets self.new.rows }
    {
        for n in 0..sets / 2 {
            let set = n * 2 - n % power + power;
            let least = self.tried(p, end, set, power, here);
            self.rows[p * 256 + set] = least;
        }
    }

    // Copies the next row to row `p`: no child is placed at p.
    fn copy_row(&mut self, family: &Family, p: usize)
        requires { p < 64 }
        ensures { RowCopied self.old.rows p (power (length family.now.kids.now)) self.new.rows }
    {
        // A loop: copy_within makes the whole search slower. `min` changes nothing, as a family has at most 256 sets; without it the compiler tests each
        // turn by a shift and copies one entry at a time, which takes 1.1 to 1.3 times as long.
        for set in 0..family.sets().min(256) {
            self.rows[p * 256 + set] = self.rows[(p + 1) * 256 + set];
        }
    }

    // Fills in the row where the branch ends: only the empty set is placed there.
    fn last_row(&mut self, family: &Family, hi: usize)
        requires { hi ≤ 64 }
        ensures { LastRow hi (power (length family.now.kids.now)) self.new.rows }
    {
        self.rows[hi * 256..hi * 256 + family.sets()].fill(NONE);
        self.rows[hi * 256] = 0;
    }

    // The row from which a scan down from `end` begins. If the previous scan began at the same end, this one continues from its lowest row.
    fn start_row(&mut self, family: &Family, end: usize) -> usize
        requires { end ≤ 64 }
        ensures { Started self.old.rows self.old.low self.old.hi end (power (length family.now.kids.now)) result self.new.rows }
    {
        if end == self.hi {
            return self.low;
        }
        self.last_row(family, end);
        end
    }

    // Fills in row `p`, an entry for each set of children: none of them goes to p, or one does that the table lets go there.
    fn fill_row(&mut self, family: &Family, p: usize)
        requires { p < end_by family.now.ends.now p }
        ensures { RowFilled family.now.best.now family.now.kids.now family.now.ends.now self.old.rows p self.new.rows }
    {
        let sets = family.sets();
        let end = family.ends[p];
        self.copy_row(family, p);
        let mut power = 1usize;
        let mut weight = 1u64;
        for &kid in family.kids {
            let may_go = family.best[kid * 64 + p] < NONE;
            if may_go {
                // The casts of this file lose nothing, and a `try_from` would give a Result that is never an error.
                self.try_child(p, end, sets, power, (p as u64) * weight);
            }
            power *= 2;
            weight *= 64;
        }
    }

    // The least placing of all children below target node `t`.
    fn place(&mut self, family: &Family, t: usize) -> u64
        requires branch { BranchOf family.now.ends.now t × (t < 64) × (t < self.old.low) }
        requires scanned { Scanned family.now.best.now family.now.kids.now family.now.ends.now self.old.rows self.old.low self.old.hi }
        ensures placed { PlacedBelow family.now.best.now family.now.kids.now family.now.ends.now t self.new.rows result }
        ensures down { (self.new.low ≡ t + 1) × (self.new.hi ≡ end_by family.now.ends.now t) }
    {
        let end = family.ends[t];
        let start = self.start_row(family, end);
        for p in (t + 1..start).rev() {
            self.fill_row(family, p);
        }
        self.low = t + 1;
        self.hi = end;
        self.rows[(t + 1) * 256 + (family.sets() - 1)]
    }

    // The table's entry for a source node and a target node `t` with `width` children: no images if rule 3 forbids t, and none for an inner node at a
    // leaf.
    fn entry(&mut self, family: &Family, width: u8, t: usize) -> u64
        requires branch { BranchOf family.now.ends.now t × (t < 64) × (t < self.old.low) }
        requires scanned { Scanned family.now.best.now family.now.kids.now family.now.ends.now self.old.rows self.old.low self.old.hi }
        ensures best { BestEntryBy family.now.best.now family.now.kids.now family.now.ends.now width t result }
        ensures scanned { Scanned family.now.best.now family.now.kids.now family.now.ends.now self.new.rows self.new.low self.new.hi }
        ensures above { t < self.new.low }
    {
        let is_shut = if family.kids.is_empty() {
            width != 0
        } else {
            family.ends[t] == t + 1
        };
        if is_shut { NONE } else { self.place(family, t) }
    }

    // The table's entries for a source node and the first `count` target nodes, from the last of these to the first, so that a scan can continue the
    // previous one. Before the first scan `hi` is 0, where no branch ends.
    fn entries(&mut self, family: &Family, target: &[u8], count: usize) -> [u64; 64]
        requires { Branches family.now.ends.now target.now × (length target.now ≤ 64) × (count ≤ length target.now) }
        ensures { Entries family.now.best.now family.now.kids.now family.now.ends.now target.now 0 count result }
    {
        self.low = 64;
        self.hi = 0;
        let mut row = [0u64; 64];
        for t in (0..count).rev() {
            row[t] = self.entry(family, target[t], t);
        }
        row
    }
}

// How many target nodes are tried as the image of a source node: for the root, by rule 2, only the first.
fn reach(node: usize, nodes: usize) -> usize
    ensures { result ≡ reach_by node nodes }
{
    if node == 0 { 1 } else { nodes }
}

// Fills in the table, from the last source node to the first.
fn fill_table(
    source: &[u8],
    target: &[u8],
    source_ends: &[usize; 64],
    target_ends: &[usize; 64],
    best: &mut [u64; 2048],
)
    requires { TreePair source.now target.now source_ends.now target_ends.now }
    ensures { Truth (tree source.now) (tree target.now) (best_by best.new) 0 }
{
    let mut scan = Scan {
        rows: [0u64; 16640],
        low: 64,
        hi: 0,
    };
    // by index: a node's number is what `kids_of`, `reach` and the table go by
    for s in (0..source.len()).rev() {
        let kids = kids_of(source, source_ends, s);
        let family = Family {
            best,
            ends: target_ends,
            kids: &kids[..usize::from(source[s])],
        };
        let count = reach(s, target.len());
        let row = scan.entries(&family, target, count);
        best[s * 64..s * 64 + count].copy_from_slice(&row[..count]);
    }
}

// Writes the images of one node's children, which are packed into one number, the last child's in the lowest place.
fn set_images(kids: &[usize], number: u64, images: &mut [u8; 32])
    requires { Different kids.now (length kids.now) }
    ensures { Put kids.now (length kids.now) number images.old images.new }
{
    for (place, &kid) in kids.iter().enumerate() {
        images[kid] = ((number >> (6 * place)) % 64) as u8;
    }
}

// Reads all images from the table, from the root down.
fn read_off(source: &[u8], ends: &[usize; 64], best: &[u64; 2048]) -> [u8; 32]
    requires { TreeBytes 32 source.now × Ends source.now ends.now }
    ensures { ReadTo (tree source.now) (best_by best.now) (length source.now) result }
{
    let mut images = [0u8; 32];
    for (s, &children) in source.iter().enumerate() {
        let kids = kids_of(source, ends, s);
        let number = best[s * 64 + usize::from(images[s])];
        set_images(&kids[..usize::from(children)], number, &mut images);
    }
    images
}

// The first leaf of a tree, by node number; the number of bytes if none of them is 0.
pub fn first_leaf(bytes: &[u8]) -> usize
    ensures { result ≡ first_leaf bytes.now }
{
    bytes
        .iter()
        .position(|&children| children == 0)
        .unwrap_or(bytes.len())
}

// The least image of a lone leaf, to which rule 2 does not apply: the first leaf of the target.
fn place_leaf(target: &[u8]) -> [u8; 32]
    requires { TreeBytes 64 target.now }
    ensures { Some result ≡ in_places (least_map (0 ∷ []) target.now) }
{
    let mut images = [0u8; 32];
    images[0] = first_leaf(target) as u8;
    images
}

// The least images of a tree that is not a lone leaf, by the tables.
fn solve(source: &[u8], target: &[u8]) -> Option<[u8; 32]>
    requires { TreeBytes 32 source.now × TreeBytes 64 target.now × (get_or source.now 0 0 ≢ 0) }
    ensures { result ≡ in_places (least_map source.now target.now) }
{
    let source_ends = branch_ends(source);
    let target_ends = branch_ends(target);
    let mut best = [0u64; 2048];
    fill_table(source, target, &source_ends, &target_ends, &mut best);
    if NONE <= best[0] {
        return None;
    }
    Some(read_off(source, &source_ends, &best))
}

// The least images between two trees without faults.
fn least_images(source: &[u8], target: &[u8]) -> Option<[u8; 32]>
    requires { TreeBytes 32 source.now × TreeBytes 64 target.now }
    ensures { result ≡ in_places (least_map source.now target.now) }
{
    let is_leaf = source[0] == 0;
    if is_leaf {
        Some(place_leaf(target))
    } else {
        solve(source, target)
    }
}

// Searches for the least map of a source into a target: the least images of the reduced drawing, with 255 at the nodes that are passed over.
// The map has 32 places whatever the source, as C gets it (`linduvar_search` in exports_maps).
pub fn least_map(source: &[u8], target: &[u8]) -> Result<[u8; 32], Refusal>
    ensures { Searches source.now target.now result }
{
    read_both(source, target)?;
    let kept = restrict(source, source);
    let images = least_images(kept.as_slice(), target).ok_or(Refusal::NoMap)?;
    Ok(spread_out(source, &images))
}
