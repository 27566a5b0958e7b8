// An endpoint's twelve words, lent as a part of the table: what a send and a receive leave of them (document 01, 'The calls';
// document 02, (a) and (d)). Nothing here sees the rest of the table. Both test the words first: other words stay as they are, and
// the answer is false.
// A word of kind k that holds p is k × KIND_UNIT + p.
#![tactic(auto)]

ghost use Rattle.std.specs.Prelude.{◌≡◌, ◌+◌, min};
ghost use Rattle.machine.specs.Queue.{most_lost, send_with_space, send_to_full, received};
ghost use Rattle.queue.specs.Queue.{sendable, left_by_send, receivable, left_by_receive, QueueRoom, MayPushOut, MayReceive};

use format::KIND_UNIT;
use format::tables::{EMPTY_SLOT, ENDPOINT_WORDS, MOST_LOST, NONE_LOST, NONE_WAITING, SLOTS};

// Returns whether a send can be done: twelve words with a capacity of 1 to 8 and at most 8 messages waiting, and a message of 28
// bits. So a full queue has a message to push out, and its messages are in slots.
#[tactic(auto, unfolding(crate::specs::Queue::sendable, machine::specs::Queue::capacity, machine::specs::Queue::waiting))]
fn sendable(q: &[u32], message: u32) -> bool
    ensures { result ≡ sendable q.now message }
{
    if q.len() != ENDPOINT_WORDS {
        return false;
    }
    let most = q[1] % 256;
    let count = q[2] % KIND_UNIT;
    (1 <= most) & (most <= SLOTS) & (count <= SLOTS) & (message <= MOST_LOST)
}

// Stores the message in the slot at the waiting count, and raises waiting by 1.
#[tactic(auto, unfolding(machine::specs::Queue::send_with_space, machine::specs::Queue::waiting))]
fn send_with_space(q: &mut [u32], message: u32)
    requires { QueueRoom q.old message }
    ensures { q.new ≡ send_with_space q.old message }
{
    let count = q[2] % KIND_UNIT;
    let slot = 4 + count as usize;
    q[slot] = EMPTY_SLOT + message;
    q[2] = NONE_WAITING + (count + 1);
}

// Returns the lost count after one more loss: it rises by 1, or stays at its largest.
pub fn lost_after(count: u32) -> u32
    ensures { result ≡ min (count + 1) most_lost }
{
    count.min(MOST_LOST - 1) + 1
}

// Pushes out the oldest message, puts the new one last, and raises lost by 1, or leaves it at its largest.
fn send_to_full(q: &mut [u32], message: u32)
    requires { MayPushOut q.old message }
    ensures { q.new ≡ send_to_full q.old message }
{
    let count = q[3] % KIND_UNIT;
    let lost = lost_after(count);
    take_oldest(q);
    send_with_space(q, message);
    q[3] = NONE_LOST + lost;
}

// Sends a message where `sendable` allows it, and returns whether it does. The waiting count and the capacity say whether there is
// space. The answer is the same either way.
#[tactic(auto, using(crate::proofs::Laws::may_send, crate::proofs::Laws::sent_with_space, crate::proofs::Laws::sent_to_full, crate::proofs::Laws::not_sent), unfolding(machine::specs::Queue::capacity, machine::specs::Queue::waiting))]
pub fn send(q: &mut [u32], message: u32) -> bool
    ensures value { result ≡ sendable q.old message }
    ensures q_after { q.new ≡ left_by_send q.old message }
{
    if !sendable(q, message) {
        return false;
    }
    let count = q[2] % KIND_UNIT;
    let most = q[1] % 256;
    if most <= count {
        send_to_full(q, message);
        return true;
    }
    send_with_space(q, message);
    true
}

// Returns whether a receive can be done: twelve words with 1 to 8 messages waiting, whatever the slots from the waiting count on
// hold.
#[tactic(auto, unfolding(crate::specs::Queue::receivable, machine::specs::Queue::waiting))]
fn receivable(q: &[u32]) -> bool
    ensures { result ≡ receivable q.now }
{
    if q.len() != ENDPOINT_WORDS {
        return false;
    }
    let count = q[2] % KIND_UNIT;
    (1 <= count) & (count <= SLOTS)
}

// Takes out the oldest message: the others move up, the slot that comes free is cleared, and waiting falls by 1. Slots from
// the waiting count on aren't touched, whatever they hold.
#[tactic(auto, using(crate::proofs::Received::moved_end), unfolding(machine::specs::Queue::waiting))]
fn take_oldest(q: &mut [u32])
    requires { MayReceive q.old }
    ensures { q.new ≡ received q.old }
{
    let left = q[2] % KIND_UNIT - 1;
    let last = left as usize;
    q.copy_within(5..5 + last, 4);
    q[4 + last] = EMPTY_SLOT;
    q[2] = NONE_WAITING + left;
}

// Takes out the oldest message where `receivable` allows it, and returns whether it does.
#[tactic(auto, using(crate::proofs::Laws::may_receive), unfolding(crate::specs::Queue::left_by_receive))]
pub fn receive(q: &mut [u32]) -> bool
    ensures value { result ≡ receivable q.old }
    ensures q_after { q.new ≡ left_by_receive q.old }
{
    if !receivable(q) {
        return false;
    }
    take_oldest(q);
    true
}
