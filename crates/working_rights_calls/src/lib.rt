// The calls about rights on a working state (document 02 (l)). Each checks that the call's fields are in range, then what the rows
// hold, and returns the answer's data words or the call's refusal. One that alters rights writes one place of a row and notes the
// change in the holders. All accept arbitrary values.
#![tactic(auto)]

ghost use Rattle.std.specs.Prelude.{◌≡◌, [], ℕ};
ghost use Rattle.machine.specs.Machine.{Effect.new_rights};
ghost use Rattle.answers.specs.Answer.{answer_of};
ghost use Rattle.calls.specs.declared.Call.TheVariants as calls;
ghost use Rattle.rules.specs.Access.{decided_by};
ghost use Rattle.holders.specs.Noted.{holders_after};
ghost use Rattle.working_theory.specs.State.{nobody, reading_from, row_bits, answer_from, rows_after};
ghost use Rattle.working_rights_calls.specs.Outcome.{RightsOutcome};

use calls::Refusal;
use holders::note;
use rights::Rights;
use rights_matrix::RightsMatrix;
use rules::access;
use rules::range::{of_caller, of_grant, of_remove};

// Returns the rights of a holder on the eight targets from a given one on, four bits each. It goes from the last target to the
// first, so each step shifts up what is there. Bits past 32 are dropped.
fn bits(rows: &RightsMatrix, holder: u32, from: u32) -> u32
    ensures { result ≡ row_bits rows.now holder from }
{
    let mut bits: u32 = 0;
    for i in (0..8).rev() {
        let one = rows.held(holder, from % 16 + i);
        bits = bits.wrapping_mul(16).wrapping_add(one.bits);
    }
    bits
}

// Returns the caller's row, eight targets to a word.
pub fn my_rights(n: u32, rows: &RightsMatrix, caller: u32) -> Result<(u32, u32), Refusal>
    ensures { (first : ℕ) → answer_of first result
        ≡ answer_from first rows.now [] [] (decided_by n 0 (reading_from [] [] nobody) (calls.MyRights caller)) }
{
    of_caller(n, caller)?;
    let low = bits(rows, caller, 0);
    let high = bits(rows, caller, 8);
    Ok((low, high))
}

// Writes a holder's rights on a target and notes them in the holders.
#[tactic(auto, unfolding(working_theory::specs::State::rows_after, holders::specs::Noted::holders_after))]
fn alter(rows: &mut RightsMatrix, holders: &mut [u32], holder: u32, target: u32, rights: u32)
    ensures rows_after { rows.new ≡ rows_after rows.old (new_rights holder target rights) }
    ensures holders_after { holders.new ≡ holders_after holders.old (new_rights holder target rights) }
{
    rows.put(holder, target, rights);
    note(holders, holder, target, rights);
}

// Grants rights to a recipient.
pub fn grant(
    n: u32,
    rows: &mut RightsMatrix,
    holders: &mut [u32],
    caller: u32,
    target: u32,
    recipient: u32,
    given: u32,
) -> Result<(u32, u32), Refusal>
    ensures { RightsOutcome
        (decided_by n 0 (reading_from rows.old [] nobody) (calls.Grant caller target recipient given))
        rows.old holders.old result rows.new holders.new }
{
    of_grant(n, caller, target, recipient, given)?;
    let mine = rows.held(caller, target);
    let toward = rows.held(caller, recipient);
    access::grant(caller, target, recipient, given, mine, toward)?;
    let had = rows.held(recipient, target);
    let more = had.adds(Rights { bits: given });
    alter(rows, holders, recipient, target, more.bits);
    Ok((0, 0))
}

// Removes rights of the caller's own.
pub fn remove(
    n: u32,
    rows: &mut RightsMatrix,
    holders: &mut [u32],
    caller: u32,
    target: u32,
    given: u32,
) -> Result<(u32, u32), Refusal>
    ensures { RightsOutcome (decided_by n 0 (reading_from rows.old [] nobody) (calls.Remove caller target given))
        rows.old holders.old result rows.new holders.new }
{
    of_remove(n, caller, target, given)?;
    let mine = rows.held(caller, target);
    access::remove(caller, target, given, mine)?;
    let left = mine.without(Rights { bits: given });
    alter(rows, holders, caller, target, left.bits);
    Ok((0, 0))
}

// Revokes rights of a holder.
pub fn revoke(
    n: u32,
    rows: &mut RightsMatrix,
    holders: &mut [u32],
    caller: u32,
    target: u32,
    holder: u32,
    given: u32,
) -> Result<(u32, u32), Refusal>
    ensures { RightsOutcome (decided_by n 0 (reading_from rows.old [] nobody) (calls.Revoke caller target holder given))
        rows.old holders.old result rows.new holders.new }
{
    of_grant(n, caller, target, holder, given)?;
    let mine = rows.held(caller, target);
    let toward = rows.held(caller, holder);
    access::revoke(caller, target, holder, given, mine, toward)?;
    let had = rows.held(holder, target);
    let left = had.without(Rights { bits: given });
    alter(rows, holders, holder, target, left.bits);
    Ok((0, 0))
}
