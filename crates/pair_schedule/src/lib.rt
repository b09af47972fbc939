// No function: this crate holds what a chip's tree with the disciplines of a drawing does, in specs/, and the proof that it and the drawing's own
// tree answer every request alike, in proofs/.
#![tactic(auto)]
