// One call on an accepted table (document 01, 'The calls'). It is decoded into one choice among its kinds, and each kind is served
// by a function of its own, which makes its range tests, then tests what the table holds, and writes.
ghost use Rattle.std.specs.Prelude.{◌≡◌};
ghost use Rattle.machine.specs.Table.{domains, endpoints};
ghost use Rattle.machine.specs.Check.{Accepted};
ghost use Rattle.machine.specs.Holders.{holders_of};
ghost use Rattle.answers.specs.Answer.{answer_words};
ghost use Rattle.calls.specs.Split.{call_of};
ghost use Rattle.calls.specs.Decode.{decoded};
ghost use Rattle.calls.specs.Decide.{decide_call};
ghost use Rattle.kernel.specs.Outcome.{CallOutcome};
ghost use Rattle.kernel.specs.Step.{StepOutcome};

use crate::endpoint_calls::{look_up, my_endpoints, receive, send};
use crate::rights_calls::{grant, my_rights, remove, revoke};
use answers::Answer;
use answers::by_value::{answer, refuse};
use calls::decode::decode;
use calls::{Call, Refusal};

// Serves the call of a first word and, if there is one, a second, and returns its data words.
fn serve(
    table: &mut [u32],
    n: u32,
    m: u32,
    holders: &mut [u32],
    first: u32,
    second: Option<u32>,
) -> Result<(u32, u32), Refusal>
    requires accepted { Accepted table.old }
    requires same_domains { n ≡ domains table.old }
    requires same_endpoints { m ≡ endpoints table.old }
    ensures { CallOutcome table.old holders.old (decide_call table.old (decoded first second)) result
        table.new holders.new }
{
    let call = decode(first, second);
    match call {
        Call::Refused { caller, refusal } => Err(refuse(n, caller, refusal)),
        Call::LookUp { caller, name } => look_up(table, n, m, caller, name),
        Call::Send {
            caller,
            endpoint,
            message,
        } => send(table, n, m, caller, endpoint, message),
        Call::Receive { caller, endpoint } => receive(table, n, m, caller, endpoint),
        Call::MyEndpoints { caller } => my_endpoints(table, n, caller),
        Call::MyRights { caller } => my_rights(table, n, caller),
        Call::Grant {
            caller,
            target,
            recipient,
            rights,
        } => grant(table, n, holders, caller, target, recipient, rights),
        Call::Remove {
            caller,
            target,
            rights,
        } => remove(table, n, holders, caller, target, rights),
        Call::Revoke {
            caller,
            target,
            holder,
            rights,
        } => revoke(table, n, holders, caller, target, holder, rights),
    }
}

// Serves the call of a first word and, if there is one, a second, and returns its answer.
pub fn answer_call(
    table: &mut [u32],
    n: u32,
    m: u32,
    holders: &mut [u32],
    first: u32,
    second: Option<u32>,
) -> Answer
    requires accepted { Accepted table.old }
    requires same_domains { n ≡ domains table.old }
    requires same_endpoints { m ≡ endpoints table.old }
    requires same_holders { holders.old ≡ holders_of table.old }
    ensures { StepOutcome table.old (call_of first second) (answer_words result) table.new holders.new }
{
    let outcome = serve(table, n, m, holders, first, second);
    answer(first, outcome)
}
