// The range tests of a call (12, 16, 20 and 21): they test the indices and rights that it names, by n and m alone (document 01,
// 'Where each number is checked'; document 02, (b) and (i)). No table is read, so code that holds one in another layout calls the
// same tests.
ghost use Rattle.std.specs.Prelude.{◌≡◌, not};
ghost use Rattle.machine.specs.Right.{is_set};
ghost use Rattle.machine.specs.Machine.{Decision};
ghost use Rattle.machine.specs.Guards.{place};
ghost use Rattle.calls.specs.Number.{number_of};
ghost use Rattle.rules.specs.Range.{followed, caller_number, refused_numbers, endpoint_numbers, grant_numbers, remove_numbers};

use calls::Refusal;
use result_code::Coded;
use rights::Rights;

// Returns the result of one test: nothing where it passes, or its refusal.
#[tactic(auto, unfolding(machine::specs::Guards::place))]
fn test(passes: bool, refusal: Refusal) -> Result<(), Refusal>
    ensures { (next : Decision) → followed result next ≡ place (not passes) (number_of refusal) next }
{
    if passes { Ok(()) } else { Err(refusal) }
}

// Returns whether a call may name a set of rights: it has at least one, and none that isn't a right.
#[tactic(auto, unfolding(machine::specs::Right::is_set))]
fn is_set(given: u32) -> bool
    ensures { result ≡ is_set given }
{
    (1 <= given) & (given <= Rights::ALL.bits)
}

// Returns the result of place 12.
#[tactic(auto, unfolding(crate::specs::Range::caller_number))]
pub fn of_caller(n: u32, caller: u32) -> Result<(), Refusal>
    ensures { (next : Decision) → followed result next ≡ caller_number n caller next }
{
    test(caller < n, Refusal::UnknownCaller)
}

// Returns the result of place 12 for a call that is refused without a table: 12 comes before 13 and 14, and after 10 and 11.
#[tactic(auto, unfolding(crate::specs::Range::refused_numbers))]
pub fn of_refused(n: u32, caller: u32, refusal: Refusal) -> Result<(), Refusal>
    ensures { (next : Decision) → followed result next ≡ refused_numbers n caller refusal next }
{
    if refusal.code() < 12 {
        return Ok(());
    }
    of_caller(n, caller)
}

// Returns the result of places 12 and 16.
#[tactic(auto, unfolding(crate::specs::Range::endpoint_numbers))]
pub fn of_endpoint(n: u32, m: u32, caller: u32, endpoint: u32) -> Result<(), Refusal>
    ensures { (next : Decision) → followed result next ≡ endpoint_numbers n m caller endpoint next }
{
    of_caller(n, caller)?;
    test(endpoint < m, Refusal::NoSuchEndpoint)
}

// Returns the result of places 12, 20 and 21 of a grant, and of a revoke, which passes its holder as the recipient.
#[tactic(auto, unfolding(crate::specs::Range::grant_numbers))]
pub fn of_grant(n: u32, caller: u32, target: u32, recipient: u32, given: u32) -> Result<(), Refusal>
    ensures { (next : Decision) → followed result next ≡ grant_numbers n caller target recipient given next }
{
    of_caller(n, caller)?;
    test((target < n) & (recipient < n), Refusal::NoSuchDomain)?;
    test(is_set(given), Refusal::BadRights)
}

// Returns the result of places 12, 20 and 21 of a remove.
#[tactic(auto, unfolding(crate::specs::Range::remove_numbers))]
pub fn of_remove(n: u32, caller: u32, target: u32, given: u32) -> Result<(), Refusal>
    ensures { (next : Decision) → followed result next ≡ remove_numbers n caller target given next }
{
    of_caller(n, caller)?;
    test(target < n, Refusal::NoSuchDomain)?;
    test(is_set(given), Refusal::BadRights)
}
