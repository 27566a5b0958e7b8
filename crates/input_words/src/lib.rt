// Reads words from bytes, and a table from a program's input: the part of reading that the programs have in common.
#![tactic(auto)]

pub mod table_input;
pub mod words;
