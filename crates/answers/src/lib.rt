// A call's three answer words (document 01, 'The calls'): made of its first word and of plain values, or of what a table says of
// the caller. Total: accepts arbitrary words as a table. Data that isn't in it is 0, and data of more than 32 bits, which no
// accepted table has, is cut to 32.
#![tactic(auto)]

pub mod by_value;
mod data_bits;

ghost use Rattle.std.specs.Prelude.{◌≡◌};
ghost use Rattle.machine.specs.Machine.{owned_bits, rights_bits};
ghost use Rattle.answers.specs.Answer.{head_of, has_endpoints, has_row, shown};

use data_bits::{owned_bits, rights_bits};
use format::KIND_UNIT;
use format::calls::{CALLER_UNIT, KIND_SECOND};
use table_layout::{domains, endpoint_at, endpoints, rights_at};

// A call's three answer words.
#[derive(Clone, Copy, Debug, PartialEq, Eq)]
pub struct Answer {
    pub head: u32,
    pub first: u32,
    pub second: u32,
}

// Returns the first answer word of a call without its code: the kind and the caller of the call's first word, as found. A stray
// shows no caller.
#[tactic(auto, using(crate::proofs::AnswerWords::head_stray, crate::proofs::AnswerWords::head_other))]
fn head(first: u32) -> u32
    ensures { result ≡ head_of first }
{
    let kind = first / KIND_UNIT;
    if kind == KIND_SECOND {
        return first - first % KIND_UNIT;
    }
    first - first % CALLER_UNIT
}

// Returns the data word of my endpoints: a bit for each endpoint that the caller owns.
#[tactic(auto, using(crate::proofs::AnswerWords::endpoints_past, crate::proofs::AnswerWords::endpoints_there), unfolding(crate::specs::Answer::shown))]
pub fn endpoints_listed(table: &[u32], caller: u32) -> u32
    ensures { result ≡ shown (has_endpoints table.now) (owned_bits table.now caller) }
{
    let n = domains(table);
    let m = endpoints(table);
    let end = endpoint_at(n, m);
    if table.len() < end {
        return 0;
    }
    owned_bits(table, n, m, caller)
}

// Returns the data words of my rights, eight targets to a word: those on targets 0 to 7, and those on targets 8 to 15.
#[tactic(auto, using(crate::proofs::AnswerWords::rights_past, crate::proofs::AnswerWords::rights_there), unfolding(crate::specs::Answer::shown))]
pub fn rights_listed(table: &[u32], caller: u32) -> (u32, u32)
    ensures low { result.0 ≡ shown (has_row table.now caller) (rights_bits table.now caller 0) }
    ensures high { result.1 ≡ shown (has_row table.now caller) (rights_bits table.now caller 8) }
{
    let n = domains(table);
    let end = rights_at(n, caller, n);
    if table.len() < end {
        return (0, 0);
    }
    // Whole words by bounds that are constants, so that the compiler has no loop of them.
    let low = if n < 8 {
        rights_bits(table, n, caller, 0, n)
    } else {
        rights_bits(table, n, caller, 0, 8)
    };
    let high = if n < 16 {
        rights_bits(table, n, caller, 8, n)
    } else {
        rights_bits(table, n, caller, 8, 16)
    };
    (low, high)
}
