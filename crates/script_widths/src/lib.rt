// No function: this crate states and proves what request 2.5 promises about scripts, whose ranks have four bytes after 05 and 06 and eight after 09 and
// 0A. The statements are in specs/Widths, their proofs in proofs/Widths.
#![tactic(auto)]
