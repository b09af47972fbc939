// No function: this crate holds what a map and the least map between two trees are, in specs/, and the laws about them, in proofs/.
#![tactic(auto)]
