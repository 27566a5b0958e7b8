// The writer of call lists (document 02, (c)): it takes calls as values and writes words, those that the reader takes past 10,
// 11, 13 and 14. It is lent no table. It makes two passes: the first finds a call that can't be written and counts the words, and
// only the second writes words. Both take the calls from a closure, one by one, so calls of any form are written by the same code.
#![tactic(auto)]

pub mod rows;

ghost use Rattle.std.specs.Prelude.{◌≡◌, ℕ, true, ◌++◌, ◌<◌, ◌≤◌, ◌^◌, List, length, take, drop};
ghost use Rattle.calls.specs.declared.Call.{Call as AnyCall};
ghost use Rattle.writer_theory.specs.Words.{all_fit, written};
ghost use Rattle.writer_theory.specs.Write.{too_long, writing};
ghost use Rattle.writer.specs.Answer.{refusal_code, refusal_number, answered};
ghost use Rattle.writer.specs.FirstPass.{measured};
ghost use Rattle.writer.specs.Given.{Gives};

use call_encode::{fits, put, width};
use calls::Call;
use format::calls::LONGEST_LIST;
use result_code::Coded;

// Why calls are not written.
#[derive(Clone, Copy, Debug, PartialEq, Eq)]
pub enum WriteRefusal {
    // 30: the call of this index, from 0, is a refused one or has a field that exceeds its bits
    BadCall(usize),
    // 31: the words would pass 4,096 or the lent space
    TooLong,
}

impl Coded for WriteRefusal {
    ghost code_of = { refusal_code };

    // Returns document 02's code of the refusal.
    fn code(self) -> u32 {
        match self {
            WriteRefusal::BadCall(_) => 30,
            WriteRefusal::TooLong => 31,
        }
    }
}

impl WriteRefusal {
    // Returns the number that goes with the code: the index of the bad call, or 0.
    pub fn number(self) -> usize
        ensures { result ≡ refusal_number self }
    {
        match self {
            WriteRefusal::BadCall(i) => i,
            WriteRefusal::TooLong => 0,
        }
    }
}

// Makes the first pass over n calls and returns how many words they are. Is called and not inlined: a writer that calls nothing
// keeps words below the stack pointer, where an interrupt on the same stack writes.
#[inline(never)]
fn measure<F: Fn(usize) -> Call>(n: usize, call_at: &F) -> Result<usize, WriteRefusal>
    requires few { n < 2 ^ 62 }
    requires callable { (i : ℕ) → i < n → F.pre call_at.now i }
    ensures { (cs : List AnyCall) → Gives (F.post call_at.now) n cs → result ≡ measured cs }
{
    let mut words: usize = 0;
    for i in 0..n {
        let call = call_at(i);
        if !fits(call) {
            return Err(WriteRefusal::BadCall(i));
        }
        words += width(call);
    }
    Ok(words)
}

// Makes the second pass: stores the words of n calls, which fit and have space.
fn put_all<F: Fn(usize) -> Call>(n: usize, call_at: &F, list: &mut [u32])
    requires few { n < 2 ^ 62 }
    requires callable { (i : ℕ) → i < n → F.pre call_at.now i }
    ensures { (cs : List AnyCall) → Gives (F.post call_at.now) n cs → all_fit cs ≡ true → length (written cs) ≤ length list.old
        → list.new ≡ written cs ++ drop (length (written cs)) list.old }
{
    let mut at: usize = 0;
    for i in 0..n {
        let call = call_at(i);
        put(list, at, call);
        at += width(call);
    }
}

// Returns whether 31 is due: more calls than a list may have words, or more words than that or than the lent space.
#[tactic(auto, unfolding(writer_theory::specs::Write::too_long))]
pub fn too_long(count: usize, words: usize, size: usize) -> bool
    ensures { result ≡ too_long count words size }
{
    (LONGEST_LIST < count) | (LONGEST_LIST < words) | (size < words)
}

// Writes n calls, of count that were asked for, to the start of the list and returns how many words they are.
fn write_each<F: Fn(usize) -> Call>(
    count: usize,
    n: usize,
    call_at: &F,
    list: &mut [u32],
) -> Result<usize, WriteRefusal>
    requires few { n < 2 ^ 62 }
    requires callable { (i : ℕ) → i < n → F.pre call_at.now i }
    ensures { (cs : List AnyCall) → Gives (F.post call_at.now) n cs → answered result list.new ≡ writing cs count list.old }
{
    let words = measure(n, call_at)?;
    let size = list.len();
    if too_long(count, words, size) {
        return Err(WriteRefusal::TooLong);
    }
    put_all(n, call_at, list);
    Ok(words)
}

// Writes the first count calls to the start of the list and returns how many words they are. The list's words past them are left,
// and a refusal writes no word. A count above 4,096 asks for calls that aren't there: 31, but 30 if one of those that are there is
// bad. So the count stands beside the calls (document 02, (c)).
pub fn write(
    calls: &[Call; LONGEST_LIST],
    count: usize,
    list: &mut [u32],
) -> Result<usize, WriteRefusal>
    ensures { answered result list.new ≡ writing (take count calls.now) count list.old }
{
    let n = count.min(LONGEST_LIST);
    write_each(count, n, &|i| calls[i], list)
}
