// A queue as a ring in twelve lent words (document 02 (l)): eight places with a first place and a count, wrapping round, so that a
// send and a receive move no other message. No function here is passed a table. Words that aren't twelve are left as they are.
// Takes slices and not arrays of twelve: the words are parts of memory lent through the C interface, and what is done with another
// length is promised too.
#![tactic(auto, unfolding(ring_theory::specs::Ring::of_twelve, ring_theory::specs::Ring::ring_sent, ring_theory::specs::Ring::ring_take, ring_theory::specs::Ring::put_last, ring_theory::specs::Ring::first_place, ring_theory::specs::Ring::count, ring_theory::specs::Ring::lost_count, ring_theory::specs::Ring::info, ring_theory::specs::Ring::ring_capacity, ring_theory::specs::Ring::message_at, ring_theory::specs::Ring::stored_slot))]

ghost use Rattle.std.specs.Prelude.{◌≡◌, ◌+◌, ◌-◌, ◌%◌, length};
ghost use Rattle.ring_theory.specs.Ring.{first_place, count, place_from, ring_sent, ring_of, stored_slot, stored_queue, of_twelve};
ghost use Rattle.ring.specs.Received.{Taken};

use format::KIND_UNIT;
use format::tables::{EMPTY_SLOT, ENDPOINT_WORDS, NONE_LOST, NONE_WAITING, SLOTS};
use queue::lost_after;

// Returns the index of the word of the i-th place from a first place on, wrapping round.
fn place_from(first: u32, i: u32) -> usize
    ensures { result ≡ place_from first i }
{
    4 + ((first % SLOTS + i % SLOTS) % SLOTS) as usize
}

// Returns the place after a first place, wrapping round.
fn next_place(first: u32) -> u32
    ensures { result ≡ (first + 1) % 8 }
{
    (first % SLOTS + 1) % SLOTS
}

// Puts the message after the last one. A full ring's oldest message is pushed out.
pub fn send(ring: &mut [u32], message: u32)
    ensures { ring.new ≡ of_twelve ring.old (ring_sent ring.old message) ring.old }
{
    if ring.len() != ENDPOINT_WORDS {
        return;
    }
    let first = ring[0];
    let count = ring[1];
    let lost = ring[2];
    let most = ring[3] % 256;
    let last = place_from(first, count);
    ring[last] = message;
    if count < most {
        ring[1] = count + 1;
        return;
    }
    ring[0] = next_place(first);
    ring[2] = lost_after(lost);
}

// What a receive returns: the oldest message and the lost count.
#[derive(Clone, Copy, Debug, PartialEq, Eq)]
pub struct Received {
    pub message: u32,
    pub lost: u32,
}

// Removes the oldest message and returns it with the lost count. An empty ring yields the word at its first place, and its count
// stays 0.
pub fn receive(ring: &mut [u32]) -> Received
    ensures { Taken ring.old result ring.new }
{
    if ring.len() != ENDPOINT_WORDS {
        return Received {
            message: 0,
            lost: 0,
        };
    }
    let oldest = ring[0];
    let count = ring[1];
    let lost = ring[2];
    let at = place_from(oldest, 0);
    let message = ring[at];
    ring[0] = next_place(oldest);
    ring[1] = count.saturating_sub(1);
    Received { message, lost }
}

// Loads a ring from an endpoint's words.
pub fn load(q: &[u32], ring: &mut [u32])
    ensures { ring.new
        ≡ of_twelve q.now (of_twelve ring.old (ring_of q.now) ring.old) ring.old }
{
    if q.len() != ENDPOINT_WORDS {
        return;
    }
    if ring.len() != ENDPOINT_WORDS {
        return;
    }
    ring[0] = 0;
    ring[1] = q[2] % KIND_UNIT;
    ring[2] = q[3] % KIND_UNIT;
    ring[3] = q[1];
    for (i, slot) in q[4..].iter().enumerate() {
        ring[4 + i] = slot % KIND_UNIT;
    }
}

// Returns slot i of the endpoint that a ring is stored to.
fn store_slot(ring: &[u32], first: u32, waits: u32, i: u32) -> u32
    requires twelve { length ring.now ≡ 12 }
    requires first_of_ring { first ≡ first_place ring.now }
    requires count_of_ring { waits ≡ count ring.now }
    ensures { result ≡ stored_slot ring.now i }
{
    if i < waits {
        let at = place_from(first, i);
        return EMPTY_SLOT + ring[at] % KIND_UNIT;
    }
    EMPTY_SLOT
}

// Stores a ring to an endpoint's words. The name and the info stay as they are.
pub fn store(ring: &[u32], q: &mut [u32])
    ensures { q.new
        ≡ of_twelve ring.now (of_twelve q.old (stored_queue ring.now q.old) q.old)
        q.old }
{
    if ring.len() != ENDPOINT_WORDS {
        return;
    }
    if q.len() != ENDPOINT_WORDS {
        return;
    }
    let first = ring[0];
    let count = ring[1];
    q[2] = NONE_WAITING + count % KIND_UNIT;
    q[3] = NONE_LOST + ring[2] % KIND_UNIT;
    for i in 0..SLOTS {
        q[4 + i as usize] = store_slot(ring, first, count, i);
    }
}
