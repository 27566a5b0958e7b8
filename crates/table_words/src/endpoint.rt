// Tests of an endpoint's twelve words (document 01, 'The table'): its identity (name, info), which never changes, and its
// queue (waiting, lost, slots). The words are lent as a part of the table. A part that is too short reads as zeros past its
// end, and zero is never a valid word.
ghost use Rattle.std.specs.Prelude.{◌≡◌, ◌+◌, ◌-◌, ◌≤◌, length, get_or};
ghost use Rattle.machine.specs.Below.{all_below};
ghost use Rattle.machine.specs.Word.{word};
ghost use Rattle.machine.specs.Check.{identity_ok, queue_ok, endpoint_ok, slot_word_ok};

use crate::{info_word_ok, lost_word_ok, name_word_ok, slot_wrong, waiting_word_ok};
use format::tables::{ENDPOINT_WORDS, SLOTS};

// Returns whether the name and the info are valid, among n domains.
#[tactic(auto, using(crate::proofs::Short::short_identity), unfolding(machine::specs::Check::identity_ok))]
pub fn identity_ok(n: u32, q: &[u32]) -> bool
    ensures { result ≡ identity_ok n q.now }
{
    if q.len() < 2 {
        return false;
    }
    let name = name_word_ok(q[0]);
    let info = info_word_ok(n, q[1]);
    name & info
}

// Returns whether the eight slots are valid, by the waiting word. The caller must pass at least twelve words.
fn slots_ok(waiting: u32, q: &[u32]) -> bool
    requires { 12 ≤ length q.now }
    ensures { result ≡ all_below 8 (λ i. slot_word_ok (waiting - word 5 0) i (get_or q.now (4 + i) 0)) }
{
    let mut wrong: u32 = 0;
    for i in 0..SLOTS {
        let slot = slot_wrong(waiting, i, q[4 + i as usize]);
        wrong |= slot;
    }
    wrong == 0
}

// Returns whether the waiting count, the lost count and the slots are valid. The caller must pass at least twelve words. This
// is a separate function without a branch, so that the compiler finds it small enough to inline into the two below.
fn whole_queue_ok(q: &[u32]) -> bool
    requires { 12 ≤ length q.now }
    ensures { result ≡ queue_ok q.now }
{
    let waiting = waiting_word_ok(q[1] % 256, q[2]);
    let lost = lost_word_ok(q[3]);
    let slots = slots_ok(q[2], q);
    waiting & lost & slots
}

// Returns whether the waiting count, the lost count and the slots are valid.
#[tactic(auto, using(crate::proofs::Short::short_queue))]
pub fn queue_ok(q: &[u32]) -> bool
    ensures { result ≡ queue_ok q.now }
{
    if q.len() < ENDPOINT_WORDS {
        return false;
    }
    whole_queue_ok(q)
}

// Returns whether all twelve words are valid, among n domains.
#[tactic(auto, using(crate::proofs::Short::short_endpoint), unfolding(machine::specs::Check::endpoint_ok))]
pub fn endpoint_ok(n: u32, q: &[u32]) -> bool
    ensures { result ≡ endpoint_ok n q.now }
{
    if q.len() < ENDPOINT_WORDS {
        return false;
    }
    let identity = identity_ok(n, q);
    let queue = whole_queue_ok(q);
    identity & queue
}
