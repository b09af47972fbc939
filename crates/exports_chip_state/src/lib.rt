// The openings and the counts of a chip's tree with disciplines, for a program in C or Rust: `tests/` links and compares them. A tree is passed as
// plain numbers, the drawings as slices. The calls on a chip's tree are in the crate `exports_chip_calls`.
#![tactic(auto)]

ghost use Rattle.std.specs.Prelude.{◌≡◌};
ghost use Rattle.pifo_model.specs.Tree.{held};
ghost use Rattle.queue_state.specs.State.{tree_of};
ghost use Rattle.tree_state.specs.Opening.{opened_tree};
ghost use Rattle.chip_state.specs.Opening.{chip_fault};
ghost use Rattle.chip_open.specs.Opening.{both_trees_fault, opened_both};
ghost use Rattle.chip_counts.specs.Amounts.{count_fault};
ghost use Rattle.exports_plain_answers.specs.Answers.{plain_counted};
ghost use Rattle.exports_plain_tree.specs.Trees.{tree_from};
ghost use Rattle.exports_plain_tree.specs.Answers.{plain_opened};
ghost use Rattle.exports_chip_state.specs.Answers.{plain_pair, plain_both};

use exports_plain_answers::PlainAmount;
use exports_plain_tree::{PlainRules, PlainTree, PlainTreeOpened, no_tree};
use pair_state::Pair;
use refusal::Refusal;
use tree_state::Tree;

// The answer to an opening of both trees: the trees, empty, the least map and 0; or zeros throughout and the refusal's number.
#[repr(C)]
#[derive(Clone, Copy)]
pub struct PlainPairOpened {
    pub source: PlainTree,
    pub chip: PlainTree,
    pub map: [u8; 32],
    pub refusal: u8,
}

// C gets zeros in place of both trees and the map.
impl From<Result<Pair<Tree>, Refusal>> for PlainPairOpened {
    ghost from_gives = { λ opening plain. plain ≡ plain_pair opening };

    fn from(opening: Result<Pair<Tree>, Refusal>) -> PlainPairOpened {
        let (both, refusal) = match opening {
            Ok(both) => (both, 0),
            Err(refusal) => {
                let none = no_tree();
                let nothing = Pair {
                    source: none,
                    chip: none,
                    map: [0; 32],
                };
                (nothing, refusal.into())
            }
        };
        // A variable: the borrow checker does not cover a field that is an array and is made part of a literal straight.
        let map = both.map;
        PlainPairOpened {
            source: both.source.into(),
            chip: both.chip.into(),
            map,
            refusal,
        }
    }
}

// Opens both trees with one packet limit, a rule for each node of the drawing, and the least map.
#[unsafe(no_mangle)]
pub extern "C" fn linduvar_pair_open(
    source: &[u8],
    target: &[u8],
    limit: usize,
    rules: PlainRules,
) -> PlainPairOpened
    ensures { result
        ≡ plain_both (both_trees_fault source.now target.now limit rules.rules) (opened_both source.now target.now limit rules.rules) }
{
    chip_open::open_both(source, target, limit, rules.rules).into()
}

// Opens a chip's tree for a drawing, with a packet limit and a rule for each node of the drawing.
#[unsafe(no_mangle)]
pub extern "C" fn linduvar_chip_open(
    source: &[u8],
    target: &[u8],
    limit: usize,
    rules: PlainRules,
) -> PlainTreeOpened
    ensures { result ≡ plain_opened (chip_fault source.now target.now limit rules.rules) (opened_tree target.now limit rules.rules) }
{
    chip_open::open(source, target, limit, rules.rules).into()
}

// How many packets a chip's tree holds.
#[unsafe(no_mangle)]
pub extern "C" fn linduvar_chip_held(source: &[u8], tree: PlainTree) -> PlainAmount
    ensures { result ≡ plain_counted (count_fault source.now (tree_from tree)) (held (tree_of (tree_from tree).state)) }
{
    chip_counts::held(source, tree.into()).into()
}

// How many pushes a chip's tree has refused because it was full.
#[unsafe(no_mangle)]
pub extern "C" fn linduvar_chip_refusals(source: &[u8], tree: PlainTree) -> PlainAmount
    ensures { result ≡ plain_counted (count_fault source.now (tree_from tree)) (tree_from tree).state.refused }
{
    chip_counts::refusals(source, tree.into()).into()
}
