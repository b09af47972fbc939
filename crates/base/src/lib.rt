// No function: specs/ has the definitions that all other crates share, proofs/ the laws on lists, tests and refusals that the kit's library lacks.
#![tactic(auto)]
