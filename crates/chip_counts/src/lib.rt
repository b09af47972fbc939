// The counts of a chip's tree with disciplines, and what is tested first in every call on it.
//
// The two counts have two lines each and differ in the second. One function for both would take that call as a parameter, and be longer than they are.
#![tactic(auto)]

ghost use Rattle.std.specs.Prelude.{◌≡◌, IfOk};
ghost use Rattle.refusal.specs.Numbers.{number_of};
ghost use Rattle.pifo_model.specs.Tree.{held};
ghost use Rattle.queue_state.specs.State.{tree_of};
ghost use Rattle.chip_counts.specs.FirstFault.{first_fault};
ghost use Rattle.chip_counts.specs.Amounts.{count_fault};

use discipline_check::check_rules;
use refusal::Refusal;
use topology::{SOURCE_NODES, TARGET_NODES, read};
use tree_state::Tree;

// Tests a drawing, the rules and a chip's number of nodes, before the chip's state is tested: 1 to 5, then 18.
pub fn test_first(source: &[u8], tree: &Tree) -> Result<(), Refusal>
    ensures { number_of result ≡ first_fault source.now tree.now.state.frame.nodes tree.now.disciplines.rules }
{
    read(source, SOURCE_NODES)?;
    if TARGET_NODES < tree.state.frame.nodes
        || check_rules(source, tree.disciplines.rules).is_err()
    {
        return Err(Refusal::State);
    }
    Ok(())
}

// How many packets a chip's tree holds.
pub fn held(source: &[u8], tree: Tree) -> Result<u32, Refusal>
    ensures refusal { number_of result ≡ count_fault source.now tree }
    ensures count { IfOk result (λ n. n ≡ held (tree_of tree.state)) }
{
    test_first(source, &tree)?;
    queue_counts::held(tree.state)
}

// How many pushes a chip's tree has refused because it was full.
pub fn refusals(source: &[u8], tree: Tree) -> Result<u32, Refusal>
    ensures refusal { number_of result ≡ count_fault source.now tree }
    ensures count { IfOk result (λ n. n ≡ tree.state.refused) }
{
    test_first(source, &tree)?;
    queue_counts::refusals(tree.state)
}
