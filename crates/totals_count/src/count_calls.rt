// What the calls of a list count at each endpoint, by their answers (document 02 (e)).
ghost use Rattle.std.specs.Prelude.{◌≡◌, ◌&&◌, eqb};
ghost use Rattle.machine.specs.Word.{kind as kind_of, answer_code};
ghost use Rattle.totals_count.specs.Counted.{CallsCounted};

use calls::split::{second_at, width};
use format::KIND_UNIT;
use format::answers::CODE;
use format::calls::{B_UNIT, KIND_RECEIVE, KIND_SEND};
use format::tables::ENDPOINT_PLACES;
use table_layout::word;

// How many sends to each endpoint and receives from it were answered 0, for as many endpoints as a table can have.
#[derive(Debug, PartialEq, Eq, Drop)]
pub struct Counted {
    pub sent: [u64; 32],
    pub received: [u64; 32],
}

// Returns whether a call is of a kind and was answered 0, by its first word and the first word of its answer.
fn done(first: u32, answer: u32, kind: u32) -> bool
    ensures { result ≡ (eqb (kind_of first) kind && eqb (answer_code answer) 0) }
{
    first / KIND_UNIT == kind && answer % CODE == 0
}

// Counts the calls of a list at each endpoint that a table can have. A call may name others, which no table has: these are left out.
// The answers are three words for each call.
pub fn count_calls(list: &[u32], answers: &[u32]) -> Counted
    ensures { CallsCounted list.now answers.now result }
{
    let mut sent = [0u64; 32];
    let mut received = [0u64; 32];
    let mut at: usize = 0;
    let mut i: usize = 0;
    // Counts up by hand: a call has one word or two, and its answer three.
    while i < list.len() {
        let first = list[i];
        let answer = word(answers, at);
        let e = (first / B_UNIT % 256) as usize;
        if e < ENDPOINT_PLACES {
            sent[e] += u64::from(done(first, answer, KIND_SEND));
            received[e] += u64::from(done(first, answer, KIND_RECEIVE));
        }
        at += 3;
        i += width(second_at(list, i));
    }
    Counted { sent, received }
}
