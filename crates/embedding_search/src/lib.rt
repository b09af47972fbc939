// The search for the least map, by which paths are carried over to the chip's tree. What its answer is stands in `embedding_least`; this crate adds, by
// the queue tree's contracts alone, that the two trees then answer alike.
#![tactic(auto)]

ghost use Rattle.embedding_search.specs.Search.{Finds};

use embedding_least::least_map;
use refusal::Refusal;

// Searches for the least map of a source into a target. Tested in this order: 1 to 5 of the source, 1 to 5 of the target, 12.
pub fn search(source: &[u8], target: &[u8]) -> Result<[u8; 32], Refusal>
    ensures { Finds source.now target.now result }
{
    least_map(source, target)
}
