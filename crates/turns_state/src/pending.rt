// A domain's seventeen words in the state of the turns (document 02 (m)), lent as a part of it: the count of its pending words,
// then sixteen words of which the first so many are pending, oldest first. Nothing here reads another domain's words. Words from
// the count on are never read, and a count above 16 is read as 16. Where the words aren't seventeen, `enqueue` and `dequeue` change
// nothing.
ghost use Rattle.std.specs.Prelude.{◌≡◌, ◌+◌, ◌≤◌, length};
ghost use Rattle.turns_theory.specs.Turns.{most_pending};
ghost use Rattle.turns_state.specs.Pending.{count, enqueuable, left_by_enqueue, enqueued, MayEnqueue};
ghost use Rattle.turns_state.specs.Pending.{dequeuable, left_by_dequeue, dequeued, MayDequeue, second_of_oldest};

use kernel::reports::second_of_first;

// Returns the count of pending words, at most 16.
#[tactic(auto, unfolding(crate::specs::Pending::count))]
pub fn count(block: &[u32]) -> usize
    ensures value { result ≡ count block.now }
    ensures bound { result ≤ most_pending }
{
    if block.is_empty() {
        return 0;
    }
    block[0].min(16) as usize
}

// Returns whether the words are seventeen and `more` words have room.
fn enqueuable(block: &[u32], more: usize) -> bool
    ensures { result ≡ enqueuable block.now more }
{
    if block.len() != 17 {
        return false;
    }
    let pending = count(block);
    more <= 16 - pending
}

// Appends the words to those that are pending.
fn put_last(block: &mut [u32], words: &[u32])
    requires { MayEnqueue block.old (length words.now) }
    ensures { block.new ≡ enqueued block.old words.now }
{
    let pending = count(block);
    let left = pending + words.len();
    block[1 + pending..1 + left].copy_from_slice(words);
    block[0] = left as u32;
}

// Appends the words to those that are pending and returns true, or returns false where there is no room for them.
pub fn enqueue(block: &mut [u32], words: &[u32]) -> bool
    ensures value { result ≡ enqueuable block.old (length words.now) }
    ensures block_after { block.new ≡ left_by_enqueue block.old words.now }
{
    if !enqueuable(block, words.len()) {
        return false;
    }
    put_last(block, words);
    true
}

// Returns the second word of the oldest pending call, if it has one.
pub fn second_of_oldest(block: &[u32]) -> Option<u32>
    ensures { result ≡ second_of_oldest block.now }
{
    if block.len() != 17 {
        return None;
    }
    let end = 1 + count(block);
    second_of_first(&block[1..end])
}

// Returns whether the words are seventeen and at least `few` are pending.
fn dequeuable(block: &[u32], few: usize) -> bool
    ensures { result ≡ dequeuable block.now few }
{
    if block.len() != 17 {
        return false;
    }
    let pending = count(block);
    few <= pending
}

// Removes the first `few` words and moves the pending ones after them to the front. Words from the count that is left on stay.
fn move_down(block: &mut [u32], few: usize)
    requires { MayDequeue block.old few }
    ensures { block.new ≡ dequeued block.old few }
{
    let pending = count(block);
    let left = pending - few;
    block.copy_within(1 + few..1 + pending, 1);
    block[0] = left as u32;
}

// Removes the first `few` pending words and returns true, or returns false where fewer are pending.
pub fn dequeue(block: &mut [u32], few: usize) -> bool
    ensures value { result ≡ dequeuable block.old few }
    ensures block_after { block.new ≡ left_by_dequeue block.old few }
{
    if !dequeuable(block, few) {
        return false;
    }
    move_down(block, few);
    true
}
