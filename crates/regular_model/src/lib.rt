// No function: this crate holds what the least depth of a regular chip is, in specs/, and the proof that a formula gives it, in proofs/.
#![tactic(auto)]
