// The calls about endpoints (document 01, 'The calls'), in the lent table's own words. Each makes its range tests, then reads what
// the table holds. A send and a receive lend the endpoint's twelve words to crate queue.
ghost use Rattle.std.specs.Prelude.{◌≡◌, List, ℕ, ◌+◌, ◌<◌, ◌≤◌, length};
ghost use Rattle.machine.specs.Word.{most_payload};
ghost use Rattle.machine.specs.Table as machine;
ghost use Rattle.machine.specs.Table.{domains, endpoints};
ghost use Rattle.machine.specs.Check.{Accepted};
ghost use Rattle.machine.specs.Machine.{named};
ghost use Rattle.calls.specs.Decide.{decide_call};
ghost use Rattle.calls.specs.declared.Call.TheVariants.{LookUp, Send, Receive, MyEndpoints};
ghost use Rattle.rules.specs.Access.{found_of};
ghost use Rattle.kernel.specs.Outcome.{CallOutcome};

use crate::rights_calls::held;
use answers::endpoints_listed;
use calls::Refusal;
use format::KIND_UNIT;
use format::tables::{ENDPOINT_WORDS, NONE_LOST};
use rules::access;
use rules::range::{of_caller, of_endpoint};
use table_layout::endpoint_at;

// Returns the place of the first of an endpoint's twelve words, all of which are in the table.
fn place(table: &[u32], n: u32, m: u32, e: u32) -> usize
    requires accepted { Accepted table.now }
    requires same_domains { n ≡ domains table.now }
    requires same_endpoints { m ≡ endpoints table.now }
    requires known { e < m }
    ensures value { result ≡ machine.endpoint_at (domains table.now) e }
    ensures within { result + 12 ≤ length table.now }
{
    endpoint_at(n, e)
}

// Returns the first endpoint that has the name. It looks at all of them, from the last to the first: which one has the name is as
// good as random to the processor, and a mispredicted branch costs more than the names after it.
fn find(table: &[u32], n: u32, m: u32, name: u32) -> Option<u32>
    requires accepted { Accepted table.now }
    requires same_domains { n ≡ domains table.now }
    requires same_endpoints { m ≡ endpoints table.now }
    ensures { found_of result ≡ named table.now name }
{
    let mut found = m;
    for e in (0..m).rev() {
        let at = place(table, n, m, e);
        let word = table[at];
        found = if word % KIND_UNIT == name { e } else { found };
    }
    if found < m { Some(found) } else { None }
}

// Looks a name up and returns the endpoint that has it.
pub fn look_up(table: &[u32], n: u32, m: u32, caller: u32, name: u32) -> Result<(u32, u32), Refusal>
    requires accepted { Accepted table.now }
    requires same_domains { n ≡ domains table.now }
    requires same_endpoints { m ≡ endpoints table.now }
    ensures { (p : List ℕ)
        → CallOutcome table.now p (decide_call table.now (LookUp caller name)) result table.now p }
{
    of_caller(n, caller)?;
    match find(table, n, m, name) {
        Some(e) => Ok((e, 0)),
        None => Err(Refusal::NoSuchName),
    }
}

// Sends a message to an endpoint.
pub fn send(
    table: &mut [u32],
    n: u32,
    m: u32,
    caller: u32,
    e: u32,
    message: u32,
) -> Result<(u32, u32), Refusal>
    requires accepted { Accepted table.old }
    requires same_domains { n ≡ domains table.old }
    requires same_endpoints { m ≡ endpoints table.old }
    requires fits { message ≤ most_payload }
    ensures { (p : List ℕ)
        → CallOutcome table.old p (decide_call table.old (Send caller e message)) result table.new p }
{
    of_endpoint(n, m, caller, e)?;
    let start = place(table, n, m, e);
    let info = table[start + 1];
    let mine = held(table, n, caller, info / 256 % 256);
    access::send(mine, e, message)?;
    let end = start + ENDPOINT_WORDS;
    queue::send(&mut table[start..end], message);
    Ok((0, 0))
}

// Receives from an endpoint and returns the message and the lost count.
pub fn receive(
    table: &mut [u32],
    n: u32,
    m: u32,
    caller: u32,
    e: u32,
) -> Result<(u32, u32), Refusal>
    requires accepted { Accepted table.old }
    requires same_domains { n ≡ domains table.old }
    requires same_endpoints { m ≡ endpoints table.old }
    ensures { (p : List ℕ)
        → CallOutcome table.old p (decide_call table.old (Receive caller e)) result table.new p }
{
    of_endpoint(n, m, caller, e)?;
    let start = place(table, n, m, e);
    let info = table[start + 1];
    let count = table[start + 2];
    access::receive(caller, info / 256 % 256, count % KIND_UNIT, e)?;
    let message = table[start + 4];
    let lost = table[start + 3];
    let end = start + ENDPOINT_WORDS;
    queue::receive(&mut table[start..end]);
    // Subtracts the kind of the lost count, but takes the remainder of the message: two adjacent words that are masked alike become
    // one read of 64 bits, which waits for the 32-bit write of the message.
    Ok((message % KIND_UNIT, lost - NONE_LOST))
}

// Returns a bit for each endpoint that the caller owns.
pub fn my_endpoints(table: &[u32], n: u32, caller: u32) -> Result<(u32, u32), Refusal>
    requires accepted { Accepted table.now }
    requires same_domains { n ≡ domains table.now }
    ensures { (p : List ℕ)
        → CallOutcome table.now p (decide_call table.now (MyEndpoints caller)) result table.now p }
{
    of_caller(n, caller)?;
    Ok((endpoints_listed(table, caller), 0))
}
