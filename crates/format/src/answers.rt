// The answer words of a call: document 01, 'The calls'.
use crate::calls::LONGEST_LIST;

// An answer's code, bits 15–0 of its first word, is the remainder by this.
pub const CODE: u32 = 0x1_0000;

// The most answer words that a list gets: three for each call.
pub const MOST_ANSWER_WORDS: usize = 3 * LONGEST_LIST;
