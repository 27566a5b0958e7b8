// The calls about rights (document 01, 'The calls'; document 02, (b) and (i)), in the lent table's own words. Each makes its range
// tests. A grant, a remove and a revoke then test what the table holds, write one rights word and note the change in the holders.
ghost use Rattle.std.specs.Prelude.{◌≡◌, List, ℕ, ◌<◌, ◌≤◌};
ghost use Rattle.machine.specs.Table.{domains, rights, set_rights};
ghost use Rattle.machine.specs.Check.{Accepted};
ghost use Rattle.calls.specs.Decide.{decide_call};
ghost use Rattle.calls.specs.declared.Call.TheVariants.{MyRights, Grant, Remove, Revoke};
ghost use Rattle.holders.specs.Noted.{noted};
ghost use Rattle.kernel.specs.Outcome.{CallOutcome};

use answers::rights_listed;
use calls::Refusal;
use format::KIND_UNIT;
use format::tables::NO_RIGHT;
use holders::note;
use rights::Rights;
use rules::access;
use rules::range::{of_caller, of_grant, of_remove};
use table_layout::rights_at;

// Returns a holder's rights on a target.
pub fn held(table: &[u32], n: u32, holder: u32, target: u32) -> Rights
    requires accepted { Accepted table.now }
    requires same_domains { n ≡ domains table.now }
    requires known_holder { holder < n }
    requires known_target { target < n }
    ensures { result.bits ≡ rights table.now holder target }
{
    let at = rights_at(n, holder, target);
    let word = table[at];
    Rights {
        bits: word % KIND_UNIT,
    }
}

// Writes a holder's rights on a target, and notes them in the holders.
fn alter(table: &mut [u32], n: u32, holders: &mut [u32], holder: u32, target: u32, rights: u32)
    requires accepted { Accepted table.old }
    requires same_domains { n ≡ domains table.old }
    requires known_holder { holder < n }
    requires known_target { target < n }
    requires fits { rights ≤ 15 }
    ensures table_after { table.new ≡ set_rights table.old holder target rights }
    ensures holders_after { holders.new ≡ noted holders.old holder target rights }
{
    let at = rights_at(n, holder, target);
    table[at] = NO_RIGHT + rights;
    note(holders, holder, target, rights);
}

// Grants rights to a recipient.
pub fn grant(
    table: &mut [u32],
    n: u32,
    holders: &mut [u32],
    caller: u32,
    target: u32,
    recipient: u32,
    given: u32,
) -> Result<(u32, u32), Refusal>
    requires accepted { Accepted table.old }
    requires same_domains { n ≡ domains table.old }
    ensures { CallOutcome table.old holders.old
        (decide_call table.old (Grant caller target recipient given)) result table.new holders.new }
{
    of_grant(n, caller, target, recipient, given)?;
    let mine = held(table, n, caller, target);
    let toward = held(table, n, caller, recipient);
    access::grant(caller, target, recipient, given, mine, toward)?;
    let had = held(table, n, recipient, target);
    let more = had.adds(Rights { bits: given });
    alter(table, n, holders, recipient, target, more.bits);
    Ok((0, 0))
}

// Removes rights of the caller's own.
pub fn remove(
    table: &mut [u32],
    n: u32,
    holders: &mut [u32],
    caller: u32,
    target: u32,
    given: u32,
) -> Result<(u32, u32), Refusal>
    requires accepted { Accepted table.old }
    requires same_domains { n ≡ domains table.old }
    ensures { CallOutcome table.old holders.old (decide_call table.old (Remove caller target given))
        result table.new holders.new }
{
    of_remove(n, caller, target, given)?;
    let mine = held(table, n, caller, target);
    access::remove(caller, target, given, mine)?;
    let left = mine.without(Rights { bits: given });
    alter(table, n, holders, caller, target, left.bits);
    Ok((0, 0))
}

// Takes rights back from a holder.
pub fn revoke(
    table: &mut [u32],
    n: u32,
    holders: &mut [u32],
    caller: u32,
    target: u32,
    holder: u32,
    given: u32,
) -> Result<(u32, u32), Refusal>
    requires accepted { Accepted table.old }
    requires same_domains { n ≡ domains table.old }
    ensures { CallOutcome table.old holders.old
        (decide_call table.old (Revoke caller target holder given)) result table.new holders.new }
{
    of_grant(n, caller, target, holder, given)?;
    let mine = held(table, n, caller, target);
    let toward = held(table, n, caller, holder);
    access::revoke(caller, target, holder, given, mine, toward)?;
    let had = held(table, n, holder, target);
    let left = had.without(Rights { bits: given });
    alter(table, n, holders, holder, target, left.bits);
    Ok((0, 0))
}

// Returns the caller's rights, eight targets to a data word.
pub fn my_rights(table: &[u32], n: u32, caller: u32) -> Result<(u32, u32), Refusal>
    requires accepted { Accepted table.now }
    requires same_domains { n ≡ domains table.now }
    ensures { (p : List ℕ)
        → CallOutcome table.now p (decide_call table.now (MyRights caller)) result table.now p }
{
    of_caller(n, caller)?;
    Ok(rights_listed(table, caller))
}
