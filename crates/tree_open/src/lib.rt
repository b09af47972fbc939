// The opening of a queue tree with disciplines.
#![tactic(auto)]

ghost use Rattle.std.specs.Prelude.{◌≡◌, IfOk};
ghost use Rattle.refusal.specs.Numbers.{number_of};
ghost use Rattle.tree_state.specs.Opening.{tree_fault, opened_tree};

use discipline_check::check_rules;
use discipline_model::Rule;
use refusal::Refusal;
use tree_state::Tree;

// Opens an empty tree with a packet limit and a rule for each of its nodes. Tested in this order: 1 to 5, 17, 24.
pub fn open(bytes: &[u8], limit: usize, rules: [Rule; 64]) -> Result<Tree, Refusal>
    ensures refusal { number_of result ≡ tree_fault bytes.now limit rules }
    ensures tree { IfOk result (λ t. t ≡ opened_tree bytes.now limit rules) }
{
    let state = queue_state::open(bytes, limit)?;
    check_rules(bytes, rules)?;
    Ok(Tree::new(state, rules))
}
