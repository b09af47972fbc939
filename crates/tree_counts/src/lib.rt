// The counts of a queue tree with disciplines, and the test of its rules that every call on it makes.
//
// The two counts have two lines each and differ in the second. One function for both would take that call as a parameter, and be longer than they are.
#![tactic(auto)]

ghost use Rattle.std.specs.Prelude.{◌≡◌};
ghost use Rattle.pifo_model.specs.Tree.{held};
ghost use Rattle.queue_state.specs.State.{tree_of};
ghost use Rattle.queue_counts.specs.Amounts.{amount};
ghost use Rattle.tree_state.specs.Calls.{drawing, well_formed_by};
ghost use Rattle.tree_counts.specs.Sound.{TestsRules};

use discipline_check::check_rules;
use refusal::Refusal;
use topology::TARGET_NODES;
use tree_state::Tree;

// Tests a tree's rules in its own drawing: a fault 24 in them is 18 to a call, and so are more nodes than a tree can have. Unspecified: whether they
// pass if that drawing has a fault; a call is then refused by 18 in any case.
pub fn test_rules(tree: &Tree) -> Result<(), Refusal>
    ensures { TestsRules tree.now result }
{
    if TARGET_NODES < tree.state.frame.nodes
        || check_rules(tree.state.bytes(), tree.disciplines.rules).is_err()
    {
        return Err(Refusal::State);
    }
    Ok(())
}

// How many packets a tree holds.
pub fn held(tree: Tree) -> Result<u32, Refusal>
    ensures { result ≡ amount (well_formed_by (drawing tree) tree) (held (tree_of tree.state)) }
{
    test_rules(&tree)?;
    queue_counts::held(tree.state)
}

// How many pushes a tree has refused because it was full.
pub fn refusals(tree: Tree) -> Result<u32, Refusal>
    ensures { result ≡ amount (well_formed_by (drawing tree) tree) tree.state.refused }
{
    test_rules(&tree)?;
    queue_counts::refusals(tree.state)
}
