// The check of a table's image, which is its words as little-endian bytes (document 01, 'Into firmware and onto the bench').
// The words are read from the bytes in place. Only the loops are here: every test of a word is in crate table_words. No one function
// over a reader of words serves this and crate table_check: that lends an endpoint's twelve words without a copy, which bytes can't.
#![tactic(auto)]

ghost use Rattle.std.specs.Prelude.{◌≡◌, true, ◌+◌, ◌-◌, ◌*◌, ◌≤◌, eqb, length, get_or, take, drop, Result};
ghost use Rattle.machine.specs.Below.{all_below};
ghost use Rattle.machine.specs.Word.{word as table_word};
ghost use Rattle.machine.specs.Check.{slot_word_ok, endpoint_ok, header_ok, rights_ok, endpoints_ok};
ghost use Rattle.table_check.specs.Checked.{checked_code};
ghost use Rattle.input_words.specs.Bytes.{words_of};
ghost use Rattle.table_check_bytes.specs.Bytes.{bytes_for, bytes_code, Fitting};

use format::KIND_UNIT;
use format::tables::{ENDPOINT_PLACES, ENDPOINT_WORDS, SLOTS};
use input_words::words::word;
use rights::Rights;
use table_check::TableRefusal;
use table_check::names::all_different;
use table_words::{
    header_word_ok, info_word_ok, lost_word_ok, name_word_ok, rights_wrong, slot_wrong,
    waiting_word_ok,
};

// Returns word i of the bytes.
#[tactic(auto, using(crate::proofs::Words::nth))]
fn nth_word(bytes: &[u8], i: usize) -> u32
    requires { 4 * i + 4 ≤ length bytes.now }
    ensures { result ≡ get_or (words_of bytes.now) i 0 }
{
    let at = 4 * i;
    word(bytes[at], bytes[at + 1], bytes[at + 2], bytes[at + 3])
}

// Returns whether place 2 passes: four bytes are there, and they make a valid word 0.
#[tactic(auto, using(crate::proofs::Places::under_four, crate::proofs::Places::first_word))]
fn header_ok(bytes: &[u8]) -> bool
    ensures { result ≡ header_ok (words_of bytes.now) }
{
    4 <= bytes.len() && header_word_ok(nth_word(bytes, 0))
}

// Returns whether place 3 passes: the length is four times the one that the n domains and m endpoints of word 0 require.
// Precondition: place 2 passes.
#[tactic(auto, using(crate::proofs::Places::header_four), unfolding(crate::specs::Bytes::bytes_for, machine::specs::Table::domains, machine::specs::Table::endpoints))]
fn length_ok(bytes: &[u8]) -> bool
    requires { header_ok (words_of bytes.now) ≡ true }
    ensures { result ≡ eqb (length bytes.now) (bytes_for (words_of bytes.now)) }
{
    let header = nth_word(bytes, 0);
    let n = (header / 256 % 256) as usize;
    let m = (header % 256) as usize;
    bytes.len() == 4 * (1 + n * n + ENDPOINT_WORDS * m)
}

// Returns whether place 4 passes: every rights word is valid. Precondition: the places 2 and 3 pass. The wrong bits are
// gathered in one pass without an early exit, so that it processes several words at a time.
fn rights_ok(bytes: &[u8]) -> bool
    requires { Fitting bytes.now }
    ensures { result ≡ rights_ok (words_of bytes.now) }
{
    let header = nth_word(bytes, 0);
    let n = (header / 256 % 256) as usize;
    let mut wrong = 0;
    for i in 0..n * n {
        wrong |= rights_wrong(nth_word(bytes, 1 + i));
    }
    wrong <= Rights::ALL.bits
}

// Returns whether the eight slots from word `start` on are valid, by the waiting word.
fn slots_ok(bytes: &[u8], start: usize, waiting: u32) -> bool
    requires { 4 * start + 32 ≤ length bytes.now }
    ensures { result
        ≡ all_below 8 (λ i. slot_word_ok (waiting - table_word 5 0) i (get_or (words_of bytes.now) (start + i) 0)) }
{
    let mut wrong = 0;
    for i in 0..SLOTS {
        wrong |= slot_wrong(waiting, i, nth_word(bytes, start + i as usize));
    }
    wrong == 0
}

// Returns whether the endpoint from word `start` on is valid, among n domains.
fn endpoint_ok(bytes: &[u8], start: usize, n: u32) -> bool
    requires { 4 * start + 48 ≤ length bytes.now }
    ensures { result ≡ endpoint_ok n (take 12 (drop start (words_of bytes.now))) }
{
    let name = name_word_ok(nth_word(bytes, start));
    let info_word = nth_word(bytes, start + 1);
    let info = info_word_ok(n, info_word);
    let waiting_word = nth_word(bytes, start + 2);
    let waiting = waiting_word_ok(info_word % 256, waiting_word);
    let lost = lost_word_ok(nth_word(bytes, start + 3));
    let slots = slots_ok(bytes, start + 4, waiting_word);
    (name & info) & (waiting & lost & slots)
}

// Returns whether place 5 passes: every endpoint word is valid and no name repeats. Precondition: the places 2 and 3 pass.
// The loop gathers the names, which are compared at the end.
fn endpoints_ok(bytes: &[u8]) -> bool
    requires { Fitting bytes.now }
    ensures { result ≡ endpoints_ok (words_of bytes.now) }
{
    let header = nth_word(bytes, 0);
    let n = header / 256 % 256;
    let m = (header % 256) as usize;
    let from = 1 + n as usize * n as usize;
    let mut names = [0u32; ENDPOINT_PLACES];
    for e in 0..m {
        let start = from + ENDPOINT_WORDS * e;
        if !endpoint_ok(bytes, start, n) {
            return false;
        }
        names[e] = nth_word(bytes, start) % KIND_UNIT;
    }
    all_different(&names[..m])
}

// Checks a table in bytes by the places 2 to 5 of document 01. The first that fails decides.
#[tactic(auto, using(crate::proofs::Places::four_bytes, crate::proofs::Places::words_fit), unfolding(machine::specs::Check::table_code, crate::specs::Bytes::bytes_code))]
pub fn check(bytes: &[u8]) -> Result<(), TableRefusal>
    ensures { checked_code result ≡ bytes_code bytes.now }
{
    if !header_ok(bytes) {
        return Err(TableRefusal::BadHeader);
    }
    if !length_ok(bytes) {
        return Err(TableRefusal::BadLength);
    }
    if !rights_ok(bytes) {
        return Err(TableRefusal::BadRights);
    }
    if !endpoints_ok(bytes) {
        return Err(TableRefusal::BadEndpoint);
    }
    Ok(())
}
