// The size of a table's state and what a domain hands in (document 02 (m)). Total: accepts arbitrary words as a table.
ghost use Rattle.std.specs.Prelude.{◌≡◌, eqb};
ghost use Rattle.machine.specs.Table as machine;
ghost use Rattle.machine.specs.Call.{split};
ghost use Rattle.turns_theory.specs.Turns.{is_one_of};
ghost use Rattle.turns_state.specs.State.{state_length, is_call_of};

use format::KIND_UNIT;
use format::calls::{CALLER_UNIT, KIND_SECOND};
use kernel::reports::{domain_count, second_of_first, width};

// Returns whether a state's size is the one for the table's n domains.
pub fn fits(table: &[u32], size: usize) -> bool
    ensures { result ≡ eqb size (state_length (machine.domains table.now)) }
{
    let n = domain_count(table);
    size == 1 + 17 * n as usize
}

// Returns whether a call's first word is no stray and has the domain as its caller.
fn is_call_of(first: u32, domain: u32) -> bool
    ensures { result ≡ is_call_of first domain }
{
    let kind = first / KIND_UNIT;
    if kind == KIND_SECOND {
        return false;
    }
    first / CALLER_UNIT % 64 == domain
}

// Returns whether the words are exactly one call, no stray, with the domain as its caller.
pub fn is_one_call(words: &[u32], domain: u32) -> bool
    ensures { result ≡ is_one_of domain (split words.now) }
{
    if words.is_empty() {
        return false;
    }
    if !is_call_of(words[0], domain) {
        return false;
    }
    let second = second_of_first(words);
    words.len() == width(second)
}
