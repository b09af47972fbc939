// Topologies: trees as bytes, each node's number of children in preorder.
//
// `read` is the topology reader of paper 01.
#![tactic(auto)]

ghost use Rattle.std.specs.Prelude.{◌≡◌, ◌≤◌, drop};
ghost use Rattle.refusal.specs.Numbers.{number_of};
ghost use Rattle.topology.specs.Reader.{fault, fault_at, pending};

use refusal::Refusal;

// The largest number of nodes of a source.
pub const SOURCE_NODES: usize = 32;
// The largest number of nodes of a target, and of a topology that is given by itself.
pub const TARGET_NODES: usize = 64;

// A child of a node: its child number, from 1, and its node number.
#[derive(Clone, Copy)]
pub struct Child {
    pub number: u8,
    pub node: usize,
}

// The first index from `top` on whose mark is less than the debt, so that its branch is not complete; or 9.
// It answers 9, the end of the marks, and no `Option`: `read` would turn `None` into 9 again.
fn first_pending(marks: &[usize; 9], top: usize, debt: usize) -> usize
    requires { top ≤ 9 }
    ensures { (result ≤ 9) × (drop result marks.now ≡ pending debt (drop top marks.now)) }
{
    top + marks[top..]
        .iter()
        .position(|&mark| mark < debt)
        .unwrap_or(9 - top)
}

// Tests one byte, in the order of the refusals: `nodes` nodes came before it, `debt` nodes are still owed (the running debt of paper 02, 2.4), and its
// own node lies `depth` steps down.
fn test_byte(
    limit: usize,
    nodes: usize,
    debt: usize,
    depth: usize,
    children: u8,
) -> Result<(), Refusal>
    ensures { number_of result ≡ fault_at limit nodes debt depth children }
{
    if debt == 0 {
        return Err(Refusal::Excess);
    }
    if limit <= nodes {
        return Err(Refusal::TooManyNodes);
    }
    if 8 < children {
        return Err(Refusal::TooManyChildren);
    }
    if 8 < depth {
        return Err(Refusal::TooDeep);
    }
    Ok(())
}

// Reads a topology of at most `limit` nodes. The bytes are tested in order, and the first byte at fault decides.
//
// `debt` is how many nodes are still owed (paper 02, 2.4): after each byte, one plus the child counts read so far, less the number of bytes read.
// marks[top..] has a mark for each branch that has begun and is not complete, the deepest first: the debt that is left when the branch is complete.
// Nine marks are enough, since a node with nine nodes above it is refused.
pub fn read(bytes: &[u8], limit: usize) -> Result<(), Refusal>
    ensures { number_of result ≡ fault limit bytes.now }
{
    let mut debt = 1;
    // An array that is filled from its end, and no `ArrayVec`: the definition of `fault` has the deepest mark first, and an `ArrayVec`, which grows at
    // its end, would have it last. Its marks would then be the definition's in reverse, and those of complete branches would go by a loop of pops.
    let mut marks = [0usize; 9];
    let mut top = 9;
    for (nodes, &children) in bytes.iter().enumerate() {
        test_byte(limit, nodes, debt, 9 - top, children)?;
        debt -= 1;
        top -= 1;
        marks[top] = debt;
        debt += usize::from(children);
        top = first_pending(&marks, top, debt);
    }
    if debt != 0 {
        return Err(Refusal::Incomplete);
    }
    Ok(())
}
