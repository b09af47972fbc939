// A tree with disciplines as plain numbers: its state as in `exports_plain_state`, and its disciplines, which are plain numbers already. The crates
// that export calls on a tree by itself and on a chip's tree share these types.
#![tactic(auto)]

ghost use Rattle.std.specs.Prelude.{◌≡◌};
ghost use Rattle.tree_state.specs.Opening.{no_tree};
ghost use Rattle.exports_plain_tree.specs.Trees.{tree_from, plain_tree};
ghost use Rattle.exports_plain_tree.specs.Answers.{plain_opening, plain_served};

use discipline_model::{Disciplines, Rule};
use exports_plain_answers::{PlainReply, answer_refusal, answer_value};
use exports_plain_state::PlainState;
use refusal::Refusal;
use tree_state::{Tree, TreeServed};

// The fields are those of a tree.
#[repr(C)]
#[derive(Clone, Copy)]
pub struct PlainTree {
    pub state: PlainState,
    pub disciplines: Disciplines,
}

// The rules of a drawing, by node. An array can be passed only in a struct.
#[repr(C)]
#[derive(Clone, Copy)]
pub struct PlainRules {
    pub rules: [Rule; 64],
}

// The answer to an opening: the empty tree and 0; or a tree of zeros, on which every call is refused by 18, and the refusal's number.
#[repr(C)]
#[derive(Clone, Copy)]
pub struct PlainTreeOpened {
    pub tree: PlainTree,
    pub refusal: u8,
}

// The tree after a call; a refusal's number or 0; and a value: the packets held after a push, the packet that departs, or the new count of refusals
// for a push without room; else 0.
#[repr(C)]
#[derive(Clone, Copy)]
pub struct PlainTreeAnswer {
    pub tree: PlainTree,
    pub refusal: u8,
    pub value: u32,
}

// The tree that plain numbers stand for.
impl From<PlainTree> for Tree {
    ghost from_gives = { λ plain tree. tree ≡ tree_from plain };

    fn from(plain: PlainTree) -> Tree {
        Tree {
            state: plain.state.into(),
            disciplines: plain.disciplines,
        }
    }
}

// A tree as plain numbers.
impl From<Tree> for PlainTree {
    ghost from_gives = { λ tree plain. plain ≡ plain_tree tree };

    fn from(tree: Tree) -> PlainTree {
        PlainTree {
            state: tree.state.into(),
            disciplines: tree.disciplines,
        }
    }
}

impl From<TreeServed> for PlainTreeAnswer {
    ghost from_gives = { λ served plain. plain ≡ plain_served served };

    fn from(served: TreeServed) -> PlainTreeAnswer {
        let reply = PlainReply::from(served.answer);
        PlainTreeAnswer {
            tree: served.tree.into(),
            refusal: answer_refusal(reply),
            value: answer_value(reply),
        }
    }
}

// What C gets in place of a tree if an opening is refused: zeros throughout.
pub fn no_tree() -> Tree
    ensures { result ≡ no_tree }
{
    let rule = Rule {
        discipline: 0,
        weight: 0,
    };
    Tree::new(queue_state::no_tree(), [rule; 64])
}

impl From<Result<Tree, Refusal>> for PlainTreeOpened {
    ghost from_gives = { λ opening plain. plain ≡ plain_opening opening };

    fn from(opening: Result<Tree, Refusal>) -> PlainTreeOpened {
        match opening {
            Ok(tree) => PlainTreeOpened {
                tree: tree.into(),
                refusal: 0,
            },
            Err(refusal) => PlainTreeOpened {
                tree: no_tree().into(),
                refusal: refusal.into(),
            },
        }
    }
}
