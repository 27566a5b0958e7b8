// Whose turn is next (document 02 (m)).
ghost use Rattle.std.specs.Prelude.{◌≡◌, ◌&&◌, ◌<◌, leb, length};
ghost use Rattle.machine.specs.Table as machine;
ghost use Rattle.turns_theory.specs.Turns.{waits, first_pending_from, first_waiting};
ghost use Rattle.turns_state.specs.State.{state_length, turns_in, found, next_to_serve};

use kernel::reports::domain_count;

// Returns whether the domain d isn't before the place and has a call pending.
fn waits_from(state: &[u32], n: u8, place: u32, d: u8) -> bool
    requires state_len { length state.now ≡ state_length n }
    requires d_lt_n { d < n }
    ensures { result ≡ (leb place d && waits (turns_in state.now) d) }
{
    if (d as u32) < place {
        return false;
    }
    state[1 + 17 * d as usize] != 0
}

// Returns the first of the n domains, from a place on, that has a call pending.
fn first_from(state: &[u32], n: u8, place: u32) -> Option<u8>
    requires { length state.now ≡ state_length n }
    ensures { result ≡ found (first_pending_from n (turns_in state.now) place) }
{
    (0..n).find(|d| waits_from(state, n, place, *d))
}

// Returns the first domain that has a call pending, from the place of the turn upward and then from 0.
fn first_waiting(state: &[u32], n: u8) -> Option<u8>
    requires { length state.now ≡ state_length n }
    ensures { result ≡ found (first_waiting n (turns_in state.now)) }
{
    let place = state[0];
    match first_from(state, n, place) {
        Some(d) => Some(d),
        None => first_from(state, n, 0),
    }
}

// Returns the domain that a turn on the table is to serve: none where nothing is pending, or the state's length isn't the one for
// the table's domains.
pub fn next_to_serve(table: &[u32], state: &[u32]) -> Option<u8>
    ensures { result ≡ next_to_serve (machine.domains table.now) state.now }
{
    let n = domain_count(table);
    if state.len() != 1 + 17 * n as usize {
        return None;
    }
    first_waiting(state, n)
}
