// One call by itself with its answer put into lent words, and the code that C gets in the place of a Result: what the single step
// for firmware (crate balkwizu_turns) and that for the bench (crate test_export) share.
#![tactic(auto)]

ghost use Rattle.calls.specs.Split.{call_of};
ghost use Rattle.single_call.specs.Single.{SingleCall, CallOfWords};

use answers::by_value::put;
use calls::split::{second_at, width};
use kernel::step;
use result_code::Coded;

// Runs one call on a table and puts its answer. Returns 0, or the table's 2 to 5, or 6 where the holders aren't one word a domain;
// 99, which no paper uses, is for an answer space under three words. Where the result isn't 0 nothing is changed. Answer words after
// the third stay as they were. Total: accepts arbitrary words in slices of any length.
pub fn answer_call(
    table: &mut [u32],
    first: u32,
    second: Option<u32>,
    answer: &mut [u32],
    holders: &mut [u32],
) -> u32
    ensures { SingleCall table.old (call_of first second) answer.old holders.old result
        table.new answer.new holders.new }
{
    if answer.len() < 3 {
        return 99;
    }
    match step(table, first, second, holders) {
        Ok(words) => {
            put(answer, words);
            0
        }
        Err(refusal) => refusal.code(),
    }
}

// Runs the one call that words are, as they are in a list, on a table and puts its answer. Returns the first code that applies: 36
// where the words aren't exactly one call, 6 where the answer has fewer than three words, 2 to 5 where the table is refused, 6 where
// the holders aren't one word a domain; else 0. Where it isn't 0 nothing is changed. Answer words after the third stay as they
// were. Total: accepts arbitrary words in slices of any length.
pub fn run_call(table: &mut [u32], holders: &mut [u32], words: &[u32], answer: &mut [u32]) -> u32
    ensures { CallOfWords table.old holders.old words.now answer.old result
        table.new holders.new answer.new }
{
    let second = second_at(words, 0);
    let wide = width(second);
    if words.len() != wide {
        return 36;
    }
    if answer.len() < 3 {
        return 6;
    }
    answer_call(table, words[0], second, answer, holders)
}
