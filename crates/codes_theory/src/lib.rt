// What the codes are for, in the paper's own numbers. This crate has no code: the layout of a table and the claims are in specs/, and
// their proofs in proofs/.
#![tactic(auto)]
