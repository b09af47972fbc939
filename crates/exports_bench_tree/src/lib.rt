// Many calls of a tree with disciplines at once, for the benchmark in `tests/`. A tree is passed as plain numbers. There is no contract: these
// functions are proved to be safe and to end. They are not in `exports_bench_queue`, because a function with only one caller in its archive is
// inlined there, and then copies less.
#![tactic(auto)]

use exports_plain_tree::PlainTree;
use queue_push::Path;
use tree_state::Tree;

// One round of many: a pop, then a push to a leaf of a packet with the round's number.
fn round_to_leaf(tree: Tree, leaf: usize, class: u8, length: u16, number: u32) -> Tree {
    let popped = tree_calls::pop(tree);
    let pushed = tree_calls::push_to_leaf(popped.tree, leaf, class, length, number);
    pushed.tree
}

// A pop and a push to a leaf in each round.
#[unsafe(no_mangle)]
pub extern "C" fn linduvar_tree_rounds(
    tree: PlainTree,
    leaf: usize,
    class: u8,
    length: u16,
    rounds: u32,
) -> PlainTree {
    let mut current: Tree = tree.into();
    for i in 0..rounds {
        current = round_to_leaf(current, leaf, class, length, i);
    }
    current.into()
}

// One round of many: a pop, then a push along a path of a packet with the round's number.
fn round_by_path(tree: Tree, path: Path, number: u32) -> Tree {
    let popped = tree_calls::pop(tree);
    let pushed = tree_calls::push(popped.tree, path, number);
    pushed.tree
}

// A pop and a push along a path in each round.
#[unsafe(no_mangle)]
pub extern "C" fn linduvar_tree_path_rounds(tree: PlainTree, path: Path, rounds: u32) -> PlainTree {
    let mut current: Tree = tree.into();
    for i in 0..rounds {
        current = round_by_path(current, path, i);
    }
    current.into()
}
