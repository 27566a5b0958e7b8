// The calls of documents 01 and 02, decoded without a table: what a call asks for, as one choice among its kinds, or its refusal
// by a place that needs no table (10, 11, 13 and 14). Crate rules puts 12, which needs one, between 11 and 13.
#![tactic(auto)]

pub mod decode;
pub mod split;

ghost use Rattle.calls.specs.Number.{number_of};

use result_code::Coded;

// Why a call is refused, named by what is wrong.
#[derive(Clone, Copy, Debug, PartialEq, Eq)]
pub enum Refusal {
    Stray, // 10
    UnknownKind, // 11
    UnknownCaller, // 12
    UnusedField, // 13
    NoSecondWord, // 14
    NoSuchName, // 15
    NoSuchEndpoint, // 16
    MayNotSend, // 17
    NotOwner, // 18
    NothingWaiting, // 19
    NoSuchDomain, // 20
    BadRights, // 21
    LacksRight, // 22
    NoInfluence, // 23
}

impl Coded for Refusal {
    ghost code_of = { number_of };

    // Returns the paper's code of the refusal.
    fn code(self) -> u32 {
        match self {
            Refusal::Stray => 10,
            Refusal::UnknownKind => 11,
            Refusal::UnknownCaller => 12,
            Refusal::UnusedField => 13,
            Refusal::NoSecondWord => 14,
            Refusal::NoSuchName => 15,
            Refusal::NoSuchEndpoint => 16,
            Refusal::MayNotSend => 17,
            Refusal::NotOwner => 18,
            Refusal::NothingWaiting => 19,
            Refusal::NoSuchDomain => 20,
            Refusal::BadRights => 21,
            Refusal::LacksRight => 22,
            Refusal::NoInfluence => 23,
        }
    }
}

// A decoded call: its caller and the fields that its kind uses, as found. A refused one has its caller for place 12 alone, which
// comes before 13 and 14. A stray has no caller, and the 0 in its place is never read. The answer's kind and caller come from
// the call's first word.
#[derive(Clone, Copy, Debug, PartialEq, Eq)]
pub enum Call {
    LookUp {
        caller: u32,
        name: u32,
    },
    Send {
        caller: u32,
        endpoint: u32,
        message: u32,
    },
    Receive {
        caller: u32,
        endpoint: u32,
    },
    MyEndpoints {
        caller: u32,
    },
    MyRights {
        caller: u32,
    },
    Grant {
        caller: u32,
        target: u32,
        recipient: u32,
        rights: u32,
    },
    Remove {
        caller: u32,
        target: u32,
        rights: u32,
    },
    Revoke {
        caller: u32,
        target: u32,
        holder: u32,
        rights: u32,
    },
    Refused {
        caller: u32,
        refusal: Refusal,
    },
}
