// No function: this crate holds the definition of PIFO trees, in specs/, and the laws about them, in proofs/.
#![tactic(auto)]
