// The calls about endpoints on a working state (document 02 (l)). Each checks that the call's fields are in range, then what the
// state holds, and returns the answer's data words or the call's refusal. A send and a receive lend the endpoint's ring once. The
// public functions accept arbitrary values.
#![tactic(auto)]

ghost use Rattle.std.specs.Prelude.{◌≡◌, ◌&&◌, [], ◌+◌, ◌*◌, ◌%◌, ◌<◌, ℕ, eqb, ltb, length, get_or};
ghost use Rattle.machine.specs.Below.{first_below};
ghost use Rattle.answers.specs.Answer.{answer_of};
ghost use Rattle.calls.specs.declared.Call.TheVariants as calls;
ghost use Rattle.rules.specs.Access.{found_of, send_access, receive_access, decided_by};
ghost use Rattle.rights_matrix.specs.Rows.{held_in};
ghost use Rattle.ring.specs.Ring.{count, ring_owner};
ghost use Rattle.working_theory.specs.State.{hint_place, named_in, nobody, reading_from, answer_from, ring_at};
ghost use Rattle.working_endpoint_calls.specs.Outcome.{RingOutcome, RingsOutcome};

use calls::Refusal;
use format::tables::ENDPOINT_WORDS;
use rights_matrix::RightsMatrix;
use rules::access;
use rules::range::{of_caller, of_endpoint};
use table_layout::word;

// The factor of the hash of a name: about 2^32 over the golden ratio, so that names close to each other hash apart.
const HASH_FACTOR: u64 = 0x9E37_79B1;

// Returns the index of the hint for a name.
pub fn hint_place(name: u32) -> usize
    ensures { result ≡ hint_place name }
{
    (u64::from(name) * HASH_FACTOR / 0x40_0000 % 1024) as usize
}

// Returns the first endpoint that has the name, or none.
fn find(names: &[u32; 32], m: u32, name: u32) -> Option<u32>
    ensures { found_of result ≡ first_below m (λ e. eqb (get_or names.now (e % 32) 0) name) }
{
    (0..m).find(|&e| names[(e % 32) as usize] == name)
}

// Returns whether the endpoint is one of the m and has the name.
fn has_name(names: &[u32; 32], m: u32, e: u32, name: u32) -> bool
    ensures { result ≡ (ltb e m && eqb (get_or names.now (e % 32) 0) name) }
{
    e < m && names[(e % 32) as usize] == name
}

// Returns the endpoint that has the name, or none: the hint's endpoint where that has it, else the first that has it.
fn find_by(names: &[u32; 32], hints: &[u8; 1024], m: u32, name: u32) -> Option<u32>
    ensures { found_of result ≡ named_in m names.now hints.now name }
{
    let e = u32::from(hints[hint_place(name)]);
    if has_name(names, m, e, name) {
        return Some(e);
    }
    find(names, m, name)
}

// Looks a name up and returns the endpoint that has it.
pub fn look_up(
    n: u32,
    m: u32,
    names: &[u32; 32],
    hints: &[u8; 1024],
    caller: u32,
    name: u32,
) -> Result<(u32, u32), Refusal>
    ensures { (first : ℕ) → answer_of first result
        ≡ answer_from first [] [] []
        (decided_by n m (reading_from [] [] (named_in m names.now hints.now)) (calls.LookUp caller name)) }
{
    of_caller(n, caller)?;
    let e = find_by(names, hints, m, name).ok_or(Refusal::NoSuchName)?;
    Ok((e, 0))
}

// Returns the endpoints that the caller owns.
pub fn my_endpoints(n: u32, owned: &[u32; 16], caller: u32) -> Result<(u32, u32), Refusal>
    ensures { (first : ℕ) → answer_of first result
        ≡ answer_from first [] [] owned.now (decided_by n 0 (reading_from [] [] nobody) (calls.MyEndpoints caller)) }
{
    of_caller(n, caller)?;
    Ok((owned[(caller % 16) as usize], 0))
}

// Sends a message to the endpoint of the ring. The owner is read from the ring's own words.
fn send_on(
    ring: &mut [u32],
    rows: &RightsMatrix,
    caller: u32,
    e: u32,
    message: u32,
) -> Result<(u32, u32), Refusal>
    requires { length ring.old ≡ 12 }
    ensures { RingOutcome (send_access (held_in rows.now caller (ring_owner ring.old)) e message) e ring.old result ring.new }
{
    let held = rows.held(caller, ring[3] / 256 % 256);
    access::send(held, e, message)?;
    ring::send(ring, message);
    Ok((0, 0))
}

// Decides on a send where words of the endpoint's ring are missing. The message is put into no ring.
fn send_beyond(
    rings: &[u32],
    rows: &RightsMatrix,
    caller: u32,
    e: u32,
    message: u32,
) -> Result<(u32, u32), Refusal>
    requires { length rings.now < 12 * e + 12 }
    ensures { RingsOutcome (send_access (held_in rows.now caller (ring_owner (ring_at rings.now e))) e message)
        rings.now result rings.now }
{
    let info = word(rings, ENDPOINT_WORDS * e as usize + 3);
    let held = rows.held(caller, info / 256 % 256);
    access::send(held, e, message).and(Ok((0, 0)))
}

// Sends a message to an endpoint.
pub fn send(
    n: u32,
    m: u32,
    rows: &RightsMatrix,
    rings: &mut [u32],
    caller: u32,
    e: u32,
    message: u32,
) -> Result<(u32, u32), Refusal>
    ensures { RingsOutcome
        (decided_by n m (reading_from rows.now rings.old nobody) (calls.Send caller e message))
        rings.old result rings.new }
{
    of_endpoint(n, m, caller, e)?;
    let start = ENDPOINT_WORDS * e as usize;
    let end = start + ENDPOINT_WORDS;
    if rings.len() < end {
        return send_beyond(rings, rows, caller, e, message);
    }
    send_on(&mut rings[start..end], rows, caller, e, message)
}

// Receives from the endpoint of the ring. The owner and the count are read from the ring's own words.
fn receive_on(ring: &mut [u32], caller: u32, e: u32) -> Result<(u32, u32), Refusal>
    requires { length ring.old ≡ 12 }
    ensures { RingOutcome (receive_access caller (ring_owner ring.old) (count ring.old) e) e ring.old result ring.new }
{
    let count = ring[1];
    access::receive(caller, ring[3] / 256 % 256, count, e)?;
    let taken = ring::receive(ring);
    Ok((taken.message, taken.lost))
}

// Decides on a receive where words of the endpoint's ring are missing. It shows no message.
fn receive_beyond(rings: &[u32], caller: u32, e: u32) -> Result<(u32, u32), Refusal>
    requires { length rings.now < 12 * e + 12 }
    ensures { RingsOutcome
        (receive_access caller (ring_owner (ring_at rings.now e)) (count (ring_at rings.now e)) e)
        rings.now result rings.now }
{
    let start = ENDPOINT_WORDS * e as usize;
    let count = word(rings, start + 1);
    let info = word(rings, start + 3);
    access::receive(caller, info / 256 % 256, count, e).and(Ok((0, 0)))
}

// Receives from an endpoint.
pub fn receive(
    n: u32,
    m: u32,
    rings: &mut [u32],
    caller: u32,
    e: u32,
) -> Result<(u32, u32), Refusal>
    ensures { RingsOutcome (decided_by n m (reading_from [] rings.old nobody) (calls.Receive caller e))
        rings.old result rings.new }
{
    of_endpoint(n, m, caller, e)?;
    let start = ENDPOINT_WORDS * e as usize;
    let end = start + ENDPOINT_WORDS;
    if rings.len() < end {
        return receive_beyond(rings, caller, e);
    }
    receive_on(&mut rings[start..end], caller, e)
}
