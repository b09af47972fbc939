// Where a tree's branches lie in its bytes.
//
// `branch` is the call of paper 01. `branch_end`, `child`, `is_above` and `toward` are helpers for other crates. They take any bytes; their names
// say what they mean if `topology::read` accepts the bytes.
// The bytes and a node are two parameters, since most functions ask about more than one node of the same bytes.
#![tactic(auto)]

ghost use Rattle.std.specs.Prelude.{◌≡◌, ◌+◌, IfOk};
ghost use Rattle.refusal.specs.Numbers.{number_of};
ghost use Rattle.topology.specs.Branch.{branch_end, child_at, is_above, toward_at, branch_fault, branch_part};

use refusal::Refusal;
use topology::{Child, TARGET_NODES, read};

// One past the last node of the branch under `node`; the end of the bytes if they end before that, and `node` if it lies past their end.
pub fn branch_end(bytes: &[u8], node: usize) -> usize
    ensures { result ≡ branch_end bytes.now node }
{
    if bytes.len() <= node {
        return node;
    }
    let mut end = node + 1;
    // By index, since it is compared with `end`, which moves: an iterator would have to number its bytes from `node`.
    for i in node..bytes.len() {
        if i == end {
            break;
        }
        let children = usize::from(bytes[i]);
        if bytes.len() - end < children {
            return bytes.len();
        }
        end += children;
    }
    end
}

// The node number of child `index`, from 1, of `node`.
pub fn child(bytes: &[u8], node: usize, index: usize) -> Option<usize>
    ensures { result ≡ child_at bytes.now node index }
{
    let &children = bytes.get(node)?;
    if index == 0 {
        return None;
    }
    if usize::from(children) < index {
        return None;
    }
    let mut at = node + 1;
    for _ in 1..index {
        at = branch_end(bytes, at);
    }
    Some(at)
}

// Whether node `a` is node `b` or lies above it.
pub fn is_above(bytes: &[u8], a: usize, b: usize) -> bool
    ensures { result ≡ is_above bytes.now a b }
{
    a <= b && b < branch_end(bytes, a)
}

// The child of node `from` that is node `to` or lies above it.
pub fn toward(bytes: &[u8], from: usize, to: usize) -> Option<Child>
    ensures { result ≡ toward_at bytes.now from to }
{
    let &children = bytes.get(from)?;
    if to <= from {
        return None;
    }
    let mut node = from + 1;
    for number in 1..=children {
        let end = branch_end(bytes, node);
        if to < end {
            return Some(Child { number, node });
        }
        node = end;
    }
    None
}

// The branch under `node`, as a slice of the caller's own bytes. The clause `place` says that it begins `node` bytes into them.
pub fn branch<'a>(bytes: &'a [u8], node: usize) -> Result<&'a [u8], Refusal>
    ensures refusal { number_of result ≡ branch_fault bytes.now node }
    ensures part { IfOk result (λ part. part.now ≡ branch_part bytes.now node) }
    ensures place { IfOk result (λ part. part.ref_ptr ≡ (bytes.entry.ref_ptr.0, node + bytes.entry.ref_ptr.1)) }
{
    read(bytes, TARGET_NODES)?;
    if bytes.len() <= node {
        return Err(Refusal::NoSuchBranch);
    }
    Ok(&bytes[node..branch_end(bytes, node)])
}
