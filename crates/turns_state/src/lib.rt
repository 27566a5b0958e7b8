// The words that represent what is pending and the place of the turn (document 02 (m)): 1 + 17 n of them, the place first, then
// seventeen words for each domain, lowest index first (module pending). Total: accepts arbitrary words as a state. A domain whose
// seventeen words aren't all there has nothing pending and no room.
#![tactic(auto)]

pub mod domain;
pub mod order;
pub mod pending;

ghost use Rattle.std.specs.Prelude.{◌≡◌, length, replicate};
ghost use Rattle.turns_state.specs.Pending.{enqueuable, second_of_oldest, dequeuable};
ghost use Rattle.turns_state.specs.State.{block, added_to, first_of_oldest, removed_from};

// Sets every word of the state to 0, which is the beginning: nothing is pending, and the first turn starts at 0.
pub fn clear(state: &mut [u32])
    ensures { state.new ≡ replicate (length state.old) 0 }
{
    state.fill(0);
}

// Appends the words to those that are pending of the domain and returns true, or returns false where there is no room for them.
pub fn add(state: &mut [u32], domain: u8, words: &[u32]) -> bool
    ensures value { result ≡ enqueuable (block state.old domain) (length words.now) }
    ensures state_after { state.new ≡ added_to state.old domain words.now }
{
    let at = 1 + 17 * domain as usize;
    let end = at + 17;
    if state.len() < end {
        return false;
    }
    crate::pending::enqueue(&mut state[at..end], words)
}

// Returns the first word of the domain's oldest pending call, where it has one, and 0 where its seventeen words aren't all there.
// It is no Option: whoever asks has found that the domain has a call, and would test it a second time.
pub fn first_of_oldest(state: &[u32], domain: u8) -> u32
    ensures { result ≡ first_of_oldest (block state.now domain) }
{
    let at = 1 + 17 * domain as usize;
    if state.len() < at + 17 {
        return 0;
    }
    state[at + 1]
}

// Returns the second word of the domain's oldest pending call, if it has one.
pub fn second_of_oldest(state: &[u32], domain: u8) -> Option<u32>
    ensures { result ≡ second_of_oldest (block state.now domain) }
{
    let start = 1 + 17 * domain as usize;
    let end = start + 17;
    if state.len() < end {
        return None;
    }
    crate::pending::second_of_oldest(&state[start..end])
}

// Removes the first `few` pending words of the domain, moves the place after it and returns true, or returns false where fewer are
// pending.
pub fn remove(state: &mut [u32], domain: u8, few: usize) -> bool
    ensures value { result ≡ dequeuable (block state.old domain) few }
    ensures state_after { state.new ≡ removed_from state.old domain few }
{
    let from = 1 + 17 * domain as usize;
    let end = from + 17;
    if state.len() < end {
        return false;
    }
    if !crate::pending::dequeue(&mut state[from..end], few) {
        return false;
    }
    state[0] = domain as u32 + 1;
    true
}
