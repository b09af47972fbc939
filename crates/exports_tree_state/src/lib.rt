// The opening and the counts of a queue tree with disciplines by itself, for a program in C or Rust: `tests/` links and compares them. A tree is
// passed as plain numbers. The calls on such a tree are in the crate `exports_tree_calls`.
#![tactic(auto)]

ghost use Rattle.std.specs.Prelude.{◌≡◌};
ghost use Rattle.pifo_model.specs.Tree.{held};
ghost use Rattle.queue_state.specs.State.{tree_of};
ghost use Rattle.queue_counts.specs.Amounts.{amount};
ghost use Rattle.tree_state.specs.Opening.{tree_fault, opened_tree};
ghost use Rattle.tree_state.specs.Calls.{drawing, well_formed_by};
ghost use Rattle.exports_plain_answers.specs.Answers.{plain_amount};
ghost use Rattle.exports_plain_tree.specs.Trees.{tree_from};
ghost use Rattle.exports_plain_tree.specs.Answers.{plain_opened};

use exports_plain_answers::PlainAmount;
use exports_plain_tree::{PlainRules, PlainTree, PlainTreeOpened};

// Opens an empty tree with a packet limit and a rule for each of its nodes.
#[unsafe(no_mangle)]
pub extern "C" fn linduvar_tree_open(
    bytes: &[u8],
    limit: usize,
    rules: PlainRules,
) -> PlainTreeOpened
    ensures { result ≡ plain_opened (tree_fault bytes.now limit rules.rules) (opened_tree bytes.now limit rules.rules) }
{
    tree_open::open(bytes, limit, rules.rules).into()
}

// How many packets a tree holds.
#[unsafe(no_mangle)]
pub extern "C" fn linduvar_tree_held(tree: PlainTree) -> PlainAmount
    ensures { result ≡ plain_amount (amount (well_formed_by (drawing (tree_from tree)) (tree_from tree)) (held (tree_of (tree_from tree).state))) }
{
    tree_counts::held(tree.into()).into()
}

// How many pushes a tree has refused because it was full.
#[unsafe(no_mangle)]
pub extern "C" fn linduvar_tree_refusals(tree: PlainTree) -> PlainAmount
    ensures { result ≡ plain_amount (amount (well_formed_by (drawing (tree_from tree)) (tree_from tree)) (tree_from tree).state.refused) }
{
    tree_counts::refusals(tree.into()).into()
}
