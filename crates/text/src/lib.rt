// Writes text and decimal numbers into a lent buffer: the part of printing that the programs have in common.
#![tactic(auto)]

pub mod write;
