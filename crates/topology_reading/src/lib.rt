// How far a topology is read before its fault.
#![tactic(auto)]

ghost use Rattle.std.specs.Prelude.{◌≡◌, leb};
ghost use Rattle.topology.specs.Reader.{fault};
ghost use Rattle.topology_reading.specs.Accepted.{accepted_bytes};

use refusal::Refusal;
use topology::read;

// Whether each of the bytes is accepted: they are a tree, or refused by 1 after the last of them.
fn is_accepted(bytes: &[u8], limit: usize) -> bool
    ensures { result ≡ leb (fault limit bytes.now) 1 }
{
    matches!(read(bytes, limit), Ok(()) | Err(Refusal::Incomplete))
}

// How many bytes of a topology of at most `limit` nodes are accepted.
pub fn accepted_bytes(bytes: &[u8], limit: usize) -> usize
    ensures { result ≡ accepted_bytes limit bytes.now }
{
    (0..bytes.len())
        .filter(|&n| is_accepted(&bytes[..n + 1], limit))
        .count()
}
