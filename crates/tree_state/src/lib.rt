// A queue tree with disciplines (paper 02, 2.1), which is passed by value: the queues, and what disciplines keep. Here are its type, the answers to
// calls on it and what calls promise. The crates `tree_open`, `tree_counts` and `tree_calls` have the calls on a tree by itself, with disciplines for
// its own nodes; `chip_open`, `chip_counts` and `chip_calls` have those on a chip's tree, with disciplines for the nodes of a drawing.
#![tactic(auto)]

ghost use Rattle.std.specs.Prelude.{◌≡◌};

use discipline_model::{Disciplines, Rule};
use queue_state::{Answer, State};

// The queues, and what disciplines keep.
#[derive(Clone, Copy)]
pub struct Tree {
    pub state: State,
    pub disciplines: Disciplines,
}

impl Tree {
    ghost use Rattle.tree_state.specs.Opening.{with_rules};

    // A newly opened tree: nothing was popped, and nothing has a finish.
    pub fn new(state: State, rules: [Rule; 64]) -> Tree
        ensures { result ≡ with_rules state rules }
    {
        Tree {
            state,
            disciplines: Disciplines {
                rules,
                virtual_time: [0; 64],
                finish: [0; 64],
            },
        }
    }
}

// The tree after a call, and the answer to it. It is `Served` of a tree: one type for both would have to call a state and a tree by one name.
#[derive(Clone, Copy)]
pub struct TreeServed {
    pub tree: Tree,
    pub answer: Answer,
}
