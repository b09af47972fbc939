// The calls on topologies for a program in C or Rust, with numbers and byte slices: `tests/` links and compares them.
#![tactic(auto)]

ghost use Rattle.std.specs.Prelude.{◌≡◌, length, get_or};
ghost use Rattle.topology.specs.Reader.{fault};
ghost use Rattle.topology.specs.Branch.{branch_fault, branch_part};

use refusal::number_of;
use topology_branches::branch;

// The refusal of a topology of at most `limit` nodes, or 0.
#[unsafe(no_mangle)]
pub extern "C" fn linduvar_read(bytes: &[u8], limit: usize) -> u8
    ensures { result ≡ fault limit bytes.now }
{
    number_of(topology::read(bytes, limit))
}

// The length of the branch under `node`; its refusal, or 0, is written to `refusal`.
#[unsafe(no_mangle)]
pub extern "C" fn linduvar_branch(bytes: &[u8], node: usize, refusal: &mut u8) -> usize
    ensures { (refusal.new ≡ branch_fault bytes.now node) × (result ≡ length (branch_part bytes.now node)) }
{
    let (fault, length) = match branch(bytes, node) {
        Ok(part) => (0, part.len()),
        Err(refusal) => (refusal.into(), 0),
    };
    *refusal = fault;
    length
}

// Byte `at` of the branch under `node`; past its end 255, which is no number of children. C has no Option, and its header names the number.
#[unsafe(no_mangle)]
pub extern "C" fn linduvar_branch_byte(bytes: &[u8], node: usize, at: usize) -> u8
    ensures { result ≡ get_or (branch_part bytes.now node) at 255 }
{
    match branch(bytes, node) {
        Ok(part) => part.get(at).copied().unwrap_or(255),
        Err(_) => 255,
    }
}
