// No function: this crate states what calls on a chip's tree with disciplines promise, with a map of a drawing. The crates `chip_open`, `chip_counts`
// and `chip_calls` have the calls.
#![tactic(auto)]
