// The opening of a chip's tree with disciplines for a drawing, and of both trees with the least map between them.
#![tactic(auto)]

ghost use Rattle.std.specs.Prelude.{◌≡◌, IfOk};
ghost use Rattle.refusal.specs.Numbers.{number_of};
ghost use Rattle.tree_state.specs.Opening.{opened_tree};
ghost use Rattle.chip_state.specs.Opening.{chip_fault};
ghost use Rattle.chip_open.specs.Opening.{both_trees_fault, opened_both};

use discipline_check::check_rules;
use discipline_model::Rule;
use pair_state::Pair;
use refusal::Refusal;
use topology::{SOURCE_NODES, read};
use tree_state::Tree;

// Opens an empty tree of the target's topology for a drawing, with a rule for each node of the drawing. Tested in this order: 1 to 5 of the drawing, 1
// to 5 of the target, 17, 24 by the drawing.
pub fn open(drawing: &[u8], target: &[u8], limit: usize, rules: [Rule; 64]) -> Result<Tree, Refusal>
    ensures refusal { number_of result ≡ chip_fault drawing.now target.now limit rules }
    ensures tree { IfOk result (λ t. t ≡ opened_tree target.now limit rules) }
{
    read(drawing, SOURCE_NODES)?;
    let state = queue_state::open(target, limit)?;
    check_rules(drawing, rules)?;
    Ok(Tree::new(state, rules))
}

// Opens both trees, the source's and the chip's, with one packet limit, the same rules and the least map. Tested in this order: 1 to 5 of the source,
// 1 to 5 of the target, 12, 17, 24 by the source.
pub fn open_both(
    source: &[u8],
    target: &[u8],
    limit: usize,
    rules: [Rule; 64],
) -> Result<Pair<Tree>, Refusal>
    ensures refusal { number_of result ≡ both_trees_fault source.now target.now limit rules }
    ensures both { IfOk result (λ b. b ≡ opened_both source.now target.now limit rules) }
{
    let Pair {
        source: drawn,
        chip,
        map,
    } = pair_state::open(source, target, limit)?;
    check_rules(source, rules)?;
    Ok(Pair {
        source: Tree::new(drawn, rules),
        chip: Tree::new(chip, rules),
        map,
    })
}
