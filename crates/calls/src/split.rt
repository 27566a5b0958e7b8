// Splits a list into calls (document 01, 'The calls'). It looks at kinds only, so it can't depend on a table: no function here is
// lent one.
ghost use Rattle.std.specs.Prelude.{◌≡◌, cond, length};
ghost use Rattle.machine.specs.Call.{wants_second, pairs, split};
ghost use Rattle.calls.specs.Split.{second_at, width_of};

use format::KIND_UNIT;
use format::calls::{KIND_LOOK_UP, KIND_SECOND, KIND_SEND};

// Returns whether a kind wants a second word: kinds 1 and 2 do.
#[tactic(auto, unfolding(machine::specs::Call::wants_second))]
pub fn wants_second(kind: u32) -> bool
    ensures { result ≡ wants_second kind }
{
    kind == KIND_LOOK_UP || kind == KIND_SEND
}

// Returns whether the words first and next, one directly after the other, make one call of both.
#[tactic(auto, unfolding(machine::specs::Call::pairs))]
pub fn make_one_call(first: u32, next: u32) -> bool
    ensures { result ≡ pairs first next }
{
    next / KIND_UNIT == KIND_SECOND && wants_second(first / KIND_UNIT)
}

// Returns how many calls a word begins: one, or none where it makes one call with the word before it.
fn begun(before: u32, word: u32) -> usize
    ensures { result ≡ cond (pairs before word) 0 1 }
{
    if make_one_call(before, word) { 0 } else { 1 }
}

// Returns how many calls a list has. Every word begins one, except a word that makes one call with the word before it.
#[tactic(auto, using(crate::proofs::Counted::counted_none, crate::proofs::Counted::one_at_most))]
pub fn count(list: &[u32]) -> usize
    ensures { result ≡ length (split list.now) }
{
    let mut calls: usize = 0;
    let mut before: u32 = 0;
    for word in list {
        calls += begun(before, *word);
        before = *word;
    }
    calls
}

// Returns the second word of the call that begins at index i of a list, if it has one. Past the list's end there is none.
#[tactic(auto, unfolding(crate::specs::Split::second_at))]
pub fn second_at(list: &[u32], i: usize) -> Option<u32>
    ensures { result ≡ second_at list.now i }
{
    match list.get(i..)? {
        [first, next, ..] if make_one_call(*first, *next) => Some(*next),
        _ => None,
    }
}

// Returns how many words a call has.
pub fn width(second: Option<u32>) -> usize
    ensures { result ≡ width_of second }
{
    match second {
        None => 1,
        Some(_) => 2,
    }
}
