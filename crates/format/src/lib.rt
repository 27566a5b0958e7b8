// Names for the constants of documents 01 and 02, for the code of the other crates, and no function. Nothing that is believed
// or proved rests on them: to a proof a name is its value, and where a value is wrong the proofs of what uses it are refused.
#![tactic(auto)]

pub mod answers;
pub mod calls;
pub mod tables;

// The lowest bit of a word's kind, which is bits 31–28. The kind is the quotient by this, and bits 27–0 are the remainder.
pub const KIND_UNIT: u32 = 0x1000_0000;
