// No function: this crate states and proves demand 3 of paper 01, "Both trees on one sheet", in specs/Demand and proofs/Demand, and the starred
// cases.
#![tactic(auto)]
