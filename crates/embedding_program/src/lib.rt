// No function: this crate holds the dynamic program of the search for the least map, what its tables mean in specs/, and its laws in proofs/.
#![tactic(auto)]
