// Serves one call on a working state (document 02 (l)): it is decoded into one choice among its kinds, and each kind is served by a
// function of its own. `serve` is total: it accepts arbitrary numbers and words.
ghost use Rattle.answers.specs.Answer.{answer_words};
ghost use Rattle.calls.specs.Decode.{decoded};
ghost use Rattle.working_theory.specs.State.{named_in};
ghost use Rattle.working.specs.Outcome.{reads, answered, StateOutcome};

use answers::Answer;
use answers::by_value::{answer, refuse};
use calls::Call;
use calls::decode::decode;
use rights_matrix::RightsMatrix;
use working_endpoint_calls::{look_up, my_endpoints, receive, send};
use working_rights_calls::{grant, my_rights, remove, revoke};

// Serves the call of a first word and, if there is one, a second, and returns its answer.
pub fn serve(
    n: u32,
    m: u32,
    rows: &mut RightsMatrix,
    rings: &mut [u32],
    names: &[u32; 32],
    hints: &[u8; 1024],
    owned: &[u32; 16],
    holders: &mut [u32],
    first: u32,
    second: Option<u32>,
) -> Answer
    ensures { StateOutcome
        (reads n m rows.old rings.old (named_in m names.now hints.now) owned.now
        holders.old)
        first (decoded first second)
        (answered (answer_words result) rows.new rings.new holders.new) }
{
    let call = decode(first, second);
    let outcome = match call {
        Call::Refused { caller, refusal } => Err(refuse(n, caller, refusal)),
        Call::LookUp { caller, name } => look_up(n, m, names, hints, caller, name),
        Call::Send {
            caller,
            endpoint,
            message,
        } => send(n, m, rows, rings, caller, endpoint, message),
        Call::Receive { caller, endpoint } => receive(n, m, rings, caller, endpoint),
        Call::MyEndpoints { caller } => my_endpoints(n, owned, caller),
        Call::MyRights { caller } => my_rights(n, rows, caller),
        Call::Grant {
            caller,
            target,
            recipient,
            rights,
        } => grant(n, rows, holders, caller, target, recipient, rights),
        Call::Remove {
            caller,
            target,
            rights,
        } => remove(n, rows, holders, caller, target, rights),
        Call::Revoke {
            caller,
            target,
            holder,
            rights,
        } => revoke(n, rows, holders, caller, target, holder, rights),
    };
    answer(first, outcome)
}
