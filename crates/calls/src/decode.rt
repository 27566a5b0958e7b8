// The decoding of a call, kind by kind (document 01, 'The calls'): the fields that it uses, once those that it doesn't use are
// zero (13) and its second word, if it wants one, is there (14). A, B and C are bits 21–16, 15–8 and 7–0 of the first word. All
// three are zero if bits 21–0 are, and two of them are if their sum is.
#![tactic(auto, using(crate::proofs::DecodeLaws::unused, crate::proofs::DecodeLaws::fine, crate::proofs::DecodeLaws::no_second, crate::proofs::DecodeLaws::no_field), unfolding(crate::specs::Decode::of_kind, crate::specs::Decode::needs_second, machine::specs::Call::unused_fields, machine::specs::Call::has_second, machine::specs::Call::second_payload))]

ghost use Rattle.std.specs.Prelude.{◌≡◌, ℕ, Option};
ghost use Rattle.machine.specs.Call.{Kind.look_up, Kind.send, Kind.receive, Kind.my_endpoints};
ghost use Rattle.machine.specs.Call.{Kind.my_rights, Kind.grant, Kind.remove, Kind.revoke};
ghost use Rattle.machine.specs.Word.{caller};
ghost use Rattle.calls.specs.Decode.{of_kind, decoded};
ghost use Rattle.calls.specs.declared.Call.TheVariants.{Refused};

use crate::{Call, Refusal};
use format::KIND_UNIT;
use format::calls::{
    A_UNIT, B_UNIT, CALLER_UNIT, KIND_GRANT, KIND_LOOK_UP, KIND_MY_ENDPOINTS, KIND_MY_RIGHTS,
    KIND_RECEIVE, KIND_REMOVE, KIND_SECOND, KIND_SEND,
};

// Returns the call of a first word as a refused one.
fn refused(first: u32, refusal: Refusal) -> Call
    ensures { result ≡ Refused (caller first) refusal }
{
    Call::Refused {
        caller: first / CALLER_UNIT % 64,
        refusal,
    }
}

// Returns the look up that the words ask for, or its refusal by 13 or 14.
pub fn look_up(first: u32, second: Option<u32>) -> Call
    ensures { result ≡ of_kind first second look_up }
{
    let caller = first / CALLER_UNIT % 64;
    if first % CALLER_UNIT != 0 {
        return refused(first, Refusal::UnusedField);
    }
    match second {
        Some(word) => Call::LookUp {
            caller,
            name: word % KIND_UNIT,
        },
        None => refused(first, Refusal::NoSecondWord),
    }
}

// Returns the send that the words ask for, or its refusal by 13 or 14.
pub fn send(first: u32, second: Option<u32>) -> Call
    ensures { result ≡ of_kind first second send }
{
    let caller = first / CALLER_UNIT % 64;
    let a = first / A_UNIT % 64;
    let endpoint = first / B_UNIT % 256;
    let c = first % B_UNIT;
    if a + c != 0 {
        return refused(first, Refusal::UnusedField);
    }
    match second {
        Some(word) => Call::Send {
            caller,
            endpoint,
            message: word % KIND_UNIT,
        },
        None => refused(first, Refusal::NoSecondWord),
    }
}

// Returns the receive that the word asks for, or its refusal by 13. This kind and those below want no second word: a call of one
// of them decodes to the same, whatever the second word is.
pub fn receive(first: u32) -> Call
    ensures { (second : Option ℕ) → result ≡ of_kind first second receive }
{
    let caller = first / CALLER_UNIT % 64;
    let a = first / A_UNIT % 64;
    let endpoint = first / B_UNIT % 256;
    let c = first % B_UNIT;
    if a + c != 0 {
        return refused(first, Refusal::UnusedField);
    }
    Call::Receive { caller, endpoint }
}

// Returns the call for the caller's endpoints that the word asks for, or its refusal by 13.
pub fn my_endpoints(first: u32) -> Call
    ensures { (second : Option ℕ) → result ≡ of_kind first second my_endpoints }
{
    let caller = first / CALLER_UNIT % 64;
    if first % CALLER_UNIT != 0 {
        return refused(first, Refusal::UnusedField);
    }
    Call::MyEndpoints { caller }
}

// Returns the call for the caller's rights that the word asks for, or its refusal by 13.
pub fn my_rights(first: u32) -> Call
    ensures { (second : Option ℕ) → result ≡ of_kind first second my_rights }
{
    let caller = first / CALLER_UNIT % 64;
    if first % CALLER_UNIT != 0 {
        return refused(first, Refusal::UnusedField);
    }
    Call::MyRights { caller }
}

// Returns the grant that the word asks for. It uses every field, so nothing refuses it here.
pub fn grant(first: u32) -> Call
    ensures { (second : Option ℕ) → result ≡ of_kind first second grant }
{
    Call::Grant {
        caller: first / CALLER_UNIT % 64,
        target: first / A_UNIT % 64,
        recipient: first / B_UNIT % 256,
        rights: first % B_UNIT,
    }
}

// Returns the remove that the word asks for, or its refusal by 13.
pub fn remove(first: u32) -> Call
    ensures { (second : Option ℕ) → result ≡ of_kind first second remove }
{
    let caller = first / CALLER_UNIT % 64;
    let target = first / A_UNIT % 64;
    let b = first / B_UNIT % 256;
    let rights = first % B_UNIT;
    if b != 0 {
        return refused(first, Refusal::UnusedField);
    }
    Call::Remove {
        caller,
        target,
        rights,
    }
}

// Returns the revoke that the word asks for. It uses every field, so nothing refuses it here.
pub fn revoke(first: u32) -> Call
    ensures { (second : Option ℕ) → result ≡ of_kind first second revoke }
{
    Call::Revoke {
        caller: first / CALLER_UNIT % 64,
        target: first / A_UNIT % 64,
        holder: first / B_UNIT % 256,
        rights: first % B_UNIT,
    }
}

// Returns the decoded call of a first word and, if there is one, a second, or its refusal by 10, 11, 13 or 14. Total: accepts
// arbitrary words, of which the words of a split list are a special case. Is inlined in both runs of an archive, which the compiler
// else does in neither (docs/DECISIONS.md, 83).
#[inline(always)]
#[tactic(auto, unfolding(crate::specs::Decode::decoded, crate::specs::Decode::of_kind, machine::specs::Call::kind_of))]
pub fn decode(first: u32, second: Option<u32>) -> Call
    ensures { result ≡ decoded first second }
{
    let kind = first / KIND_UNIT;
    let caller = first / CALLER_UNIT % 64;
    match kind {
        KIND_SECOND => Call::Refused {
            caller: 0,
            refusal: Refusal::Stray,
        },
        0 | 9..=14 => refused(first, Refusal::UnknownKind),
        KIND_LOOK_UP => look_up(first, second),
        KIND_SEND => send(first, second),
        KIND_RECEIVE => receive(first),
        KIND_MY_ENDPOINTS => my_endpoints(first),
        KIND_MY_RIGHTS => my_rights(first),
        KIND_GRANT => grant(first),
        KIND_REMOVE => remove(first),
        _ => revoke(first),
    }
}
