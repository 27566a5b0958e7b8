// Encodes a call, passed as a value, into the words that it is written in (document 02, (c)): the inverse of crate calls, which
// decodes words. No table is lent. A call can be written if it isn't a refused one and its fields are within their bits.
#![tactic(auto)]

ghost use Rattle.std.specs.Prelude.{◌≡◌, true, ◌+◌, ◌<◌, ◌≤◌, length};
ghost use Rattle.writer_theory.specs.Words.{fields_at, fields_of, within_bits, first_word, field_words, fits, encoded_words};
ghost use Rattle.call_encode.specs.Put.{pasted, put_at};

use calls::Call;
use calls::split::wants_second;
use format::KIND_UNIT;
use format::calls::{
    A_UNIT, B_UNIT, CALLER_UNIT, KIND_GRANT, KIND_LOOK_UP, KIND_MY_ENDPOINTS, KIND_MY_RIGHTS,
    KIND_RECEIVE, KIND_REMOVE, KIND_REVOKE, KIND_SEND, SECOND_WORD,
};
use writer_theory::Fields;

// Returns the six fields, which are passed in the order of their bits. With each by its name, and those of Default left out, the
// match below would have twice as many lines.
fn fields_at(kind: u32, caller: u32, a: u32, b: u32, c: u32, second: u32) -> Fields
    ensures { result ≡ fields_at kind caller a b c second }
{
    Fields {
        kind,
        caller,
        a,
        b,
        c,
        second,
    }
}

// Returns the fields of a call, each where the call's kind has it.
#[tactic(auto, unfolding(writer_theory::specs::Words::fields_of))]
pub fn fields_of(call: Call) -> Fields
    ensures { result ≡ fields_of call }
{
    match call {
        Call::LookUp { caller, name } => fields_at(KIND_LOOK_UP, caller, 0, 0, 0, name),
        Call::Send {
            caller,
            endpoint,
            message,
        } => fields_at(KIND_SEND, caller, 0, endpoint, 0, message),
        Call::Receive { caller, endpoint } => fields_at(KIND_RECEIVE, caller, 0, endpoint, 0, 0),
        Call::MyEndpoints { caller } => fields_at(KIND_MY_ENDPOINTS, caller, 0, 0, 0, 0),
        Call::MyRights { caller } => fields_at(KIND_MY_RIGHTS, caller, 0, 0, 0, 0),
        Call::Grant {
            caller,
            target,
            recipient,
            rights,
        } => fields_at(KIND_GRANT, caller, target, recipient, rights, 0),
        Call::Remove {
            caller,
            target,
            rights,
        } => fields_at(KIND_REMOVE, caller, target, 0, rights, 0),
        Call::Revoke {
            caller,
            target,
            holder,
            rights,
        } => fields_at(KIND_REVOKE, caller, target, holder, rights, 0),
        Call::Refused { caller, refusal: _ } => fields_at(0, caller, 0, 0, 0, 0),
    }
}

// Returns whether every field is within its bits and the call isn't a refused one.
#[tactic(auto, unfolding(writer_theory::specs::Words::within_bits))]
fn within_bits(f: Fields) -> bool
    ensures { result ≡ within_bits f }
{
    (f.kind != 0)
        & (f.caller < 64)
        & (f.a < 64)
        & (f.b < 256)
        & (f.c < 256)
        & (f.second < KIND_UNIT)
}

// Returns whether the call can be written.
#[tactic(auto, unfolding(writer_theory::specs::Words::fits))]
pub fn fits(call: Call) -> bool
    ensures { result ≡ fits call }
{
    within_bits(fields_of(call))
}

// Returns how many words the call is written in.
#[tactic(auto, unfolding(writer_theory::specs::Words::encoded_words, writer_theory::specs::Words::field_words))]
pub fn width(call: Call) -> usize
    ensures { result ≡ length (encoded_words call) }
{
    let kind = fields_of(call).kind;
    if wants_second(kind) { 2 } else { 1 }
}

// Returns the first word, with each field at its bits.
#[tactic(auto, using(writer_theory::proofs::FieldWords::bounds), unfolding(writer_theory::specs::Words::first_word))]
fn first_word(f: Fields) -> u32
    requires fit { within_bits f ≡ true }
    requires kind_fits { f.kind < 16 }
    ensures { result ≡ first_word f }
{
    f.kind * KIND_UNIT + (f.caller * CALLER_UNIT + f.a * A_UNIT + f.b * B_UNIT + f.c)
}

// Stores the words of fields that are within their bits, from an index of the list on.
#[tactic(auto, using(writer_theory::proofs::FieldWords::bounds, crate::proofs::Putting::one_set, crate::proofs::Putting::two_sets), unfolding(writer_theory::specs::Words::field_words))]
fn put_fields(list: &mut [u32], at: usize, f: Fields)
    requires fit { within_bits f ≡ true }
    requires kind_fits { f.kind < 16 }
    requires room { at + length (field_words f) ≤ length list.old }
    ensures { list.new ≡ pasted list.old at (field_words f) }
{
    list[at] = first_word(f);
    if wants_second(f.kind) {
        list[at + 1] = SECOND_WORD + f.second;
    }
}

// Stores the words of a call, from an index of the list on. Nothing is stored where the call can't be written, or where its words
// would pass the end.
#[tactic(auto, using(writer_theory::proofs::FieldWords::kind_small), unfolding(crate::specs::Put::put_at, writer_theory::specs::Words::fits, writer_theory::specs::Words::encoded_words))]
pub fn put(list: &mut [u32], at: usize, call: Call)
    ensures { list.new ≡ put_at list.old at call }
{
    if !fits(call) {
        return;
    }
    if list.len() < at {
        return;
    }
    if list.len() - at < width(call) {
        return;
    }
    put_fields(list, at, fields_of(call));
}
