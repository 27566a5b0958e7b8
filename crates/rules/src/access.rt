// The tests of what was read for a call (17, 18, 19, 22 and 23), by plain values: who owns the endpoint, what the caller holds,
// how many messages wait (document 01, 'Where each number is checked'; document 02, (b), (f) and (i)). Code that holds a table in
// another layout reads its own words and calls the same tests.
ghost use Rattle.std.specs.Prelude.{◌≡◌, ◌&&◌, ◌||◌, eqb};
ghost use Rattle.machine.specs.Right.{holds, has_any};
ghost use Rattle.rules.specs.Decision.{decision_of};
ghost use Rattle.rules.specs.Access.{send_access, receive_access, grant_access, revoke_access, remove_access};

use crate::Decision;
use calls::Refusal;
use rights::Rights;

// Returns the decision on a send by place 17. `held` has the caller's rights on the endpoint's owner.
#[tactic(auto, unfolding(crate::specs::Access::send_access, machine::specs::Guards::place))]
pub fn send(held: Rights, endpoint: u32, message: u32) -> Result<Decision, Refusal>
    ensures { decision_of result ≡ send_access held.bits endpoint message }
{
    if !held.holds(Rights::SEND) {
        return Err(Refusal::MayNotSend);
    }
    Ok(Decision::Sends { endpoint, message })
}

// Returns the decision on a receive by places 18 and 19. `waiting` is how many messages wait.
#[tactic(auto, unfolding(crate::specs::Access::receive_access, machine::specs::Guards::place))]
pub fn receive(caller: u32, owner: u32, waiting: u32, endpoint: u32) -> Result<Decision, Refusal>
    ensures { decision_of result ≡ receive_access caller owner waiting endpoint }
{
    if owner != caller {
        return Err(Refusal::NotOwner);
    }
    if waiting == 0 {
        return Err(Refusal::NothingWaiting);
    }
    Ok(Decision::Receives { endpoint })
}

// Returns whether the right that a call needs is held, and so are all rights that the call names.
fn holds_both(held: Rights, needed: Rights, given: u32) -> bool
    ensures { result ≡ (holds held.bits needed.bits && holds held.bits given) }
{
    let able = held.holds(needed);
    let all = held.holds(Rights { bits: given });
    able & all
}

// Returns whether the caller influences another domain: it is that one, or has any right on it.
fn influences(caller: u32, other: u32, toward: Rights) -> bool
    ensures { result ≡ (eqb caller other || has_any toward.bits) }
{
    let by_right = toward.has_any();
    (caller == other) | by_right
}

// Returns the decision on a grant by places 22 and 23. `held` has the caller's rights on the target, `toward` those on the
// recipient.
#[tactic(auto, unfolding(crate::specs::Access::grant_access, machine::specs::Guards::place))]
pub fn grant(
    caller: u32,
    target: u32,
    recipient: u32,
    rights: u32,
    held: Rights,
    toward: Rights,
) -> Result<Decision, Refusal>
    ensures { decision_of result ≡ grant_access caller target recipient rights held.bits toward.bits }
{
    if !holds_both(held, Rights::GRANT, rights) {
        return Err(Refusal::LacksRight);
    }
    if !influences(caller, recipient, toward) {
        return Err(Refusal::NoInfluence);
    }
    Ok(Decision::Grants {
        target,
        recipient,
        rights,
    })
}

// Returns the decision on a revoke by places 22 and 23. `held` has the caller's rights on the target, `toward` those on the
// holder. The holder's own rights are not read.
#[tactic(auto, unfolding(crate::specs::Access::revoke_access, machine::specs::Guards::place))]
pub fn revoke(
    caller: u32,
    target: u32,
    holder: u32,
    rights: u32,
    held: Rights,
    toward: Rights,
) -> Result<Decision, Refusal>
    ensures { decision_of result ≡ revoke_access caller target holder rights held.bits toward.bits }
{
    if !held.holds(Rights::REVOKE) {
        return Err(Refusal::LacksRight);
    }
    if !influences(caller, holder, toward) {
        return Err(Refusal::NoInfluence);
    }
    Ok(Decision::Revokes {
        target,
        holder,
        rights,
    })
}

// Returns the decision on a remove by place 22. `held` has the caller's rights on the target.
#[tactic(auto, unfolding(crate::specs::Access::remove_access, machine::specs::Guards::place))]
pub fn remove(caller: u32, target: u32, rights: u32, held: Rights) -> Result<Decision, Refusal>
    ensures { decision_of result ≡ remove_access caller target rights held.bits }
{
    if !holds_both(held, Rights::REMOVE, rights) {
        return Err(Refusal::LacksRight);
    }
    Ok(Decision::Removes {
        target,
        caller,
        rights,
    })
}
