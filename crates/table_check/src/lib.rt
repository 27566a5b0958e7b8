// The table check, which accepts or refuses a lent table place by place: document 01, 'The table' and 'Where each number is
// checked'.
#![tactic(auto)]

use crate::names::all_different;
use format::KIND_UNIT;
use format::tables::{ENDPOINT_PLACES, ENDPOINT_WORDS};
use result_code::Coded;
use rights::Rights;
use table_words::endpoint::endpoint_ok;
use table_words::{header_word_ok, rights_wrong};

pub mod names;

ghost use Rattle.std.specs.Prelude.{◌≡◌, Result};
ghost use Rattle.machine.specs.Check.{header_ok, length_ok, rights_ok, endpoints_ok, table_code};
ghost use Rattle.table_check.specs.Checked.{refusal_code, checked_code, Headed};

// What is wrong with a refused table: the place of document 01 that refuses it.
#[derive(Clone, Copy, Debug, PartialEq, Eq)]
pub enum TableRefusal {
    // 2: the table is empty, or word 0 breaks its layout
    BadHeader,
    // 3: the length differs from the one that word 0 requires
    BadLength,
    // 4: a rights word breaks its layout
    BadRights,
    // 5: an endpoint word breaks its layout, or a name repeats
    BadEndpoint,
}

impl Coded for TableRefusal {
    ghost code_of = { refusal_code };

    // Returns document 01's code for the refusal.
    fn code(self) -> u32 {
        match self {
            TableRefusal::BadHeader => 2,
            TableRefusal::BadLength => 3,
            TableRefusal::BadRights => 4,
            TableRefusal::BadEndpoint => 5,
        }
    }
}

// Returns whether place 2 passes: word 0 is there and valid.
#[tactic(auto, unfolding(machine::specs::Check::header_ok))]
fn header_ok(table: &[u32]) -> bool
    ensures { result ≡ header_ok table.now }
{
    !table.is_empty() && header_word_ok(table[0])
}

// Returns whether place 3 passes: the length is the one that the n domains and m endpoints of word 0 require.
#[tactic(auto, using(crate::proofs::Places::empty_length), unfolding(machine::specs::Check::length_ok, machine::specs::Table::domains, machine::specs::Table::endpoints))]
fn length_ok(table: &[u32]) -> bool
    ensures { result ≡ length_ok table.now }
{
    if table.is_empty() {
        return false;
    }
    let header = table[0];
    let n = (header / 256 % 256) as usize;
    let m = (header % 256) as usize;
    table.len() == 1 + n * n + ENDPOINT_WORDS * m
}

// Returns whether place 4 passes: every rights word is valid. Precondition: the places 2 and 3 pass. The wrong bits are
// gathered in one pass without an early exit, so that it processes several words at a time.
fn rights_ok(table: &[u32]) -> bool
    requires { Headed table.now }
    ensures { result ≡ rights_ok table.now }
{
    let header = table[0];
    let n = (header / 256 % 256) as usize;
    let words = &table[1..1 + n * n];
    let mut wrong = 0;
    for &word in words {
        wrong |= rights_wrong(word);
    }
    wrong <= Rights::ALL.bits
}

// Returns whether place 5 passes: every endpoint word is valid and no name repeats. Precondition: the places 2 and 3 pass.
// The loop gathers the names, which are compared at the end.
fn endpoints_ok(table: &[u32]) -> bool
    requires { Headed table.now }
    ensures { result ≡ endpoints_ok table.now }
{
    let header = table[0];
    let n = header / 256 % 256;
    let m = (header % 256) as usize;
    let from = 1 + n as usize * n as usize;
    let mut names = [0u32; ENDPOINT_PLACES];
    for e in 0..m {
        let start = from + ENDPOINT_WORDS * e;
        if !endpoint_ok(n, &table[start..start + ENDPOINT_WORDS]) {
            return false;
        }
        names[e] = table[start] % KIND_UNIT;
    }
    all_different(&names[..m])
}

// Checks a table by the places 2 to 5 of document 01. The first that fails decides. No word is written.
#[tactic(auto, unfolding(machine::specs::Check::table_code))]
pub fn check(table: &[u32]) -> Result<(), TableRefusal>
    ensures { checked_code result ≡ table_code table.now }
{
    if !header_ok(table) {
        return Err(TableRefusal::BadHeader);
    }
    if !length_ok(table) {
        return Err(TableRefusal::BadLength);
    }
    if !rights_ok(table) {
        return Err(TableRefusal::BadRights);
    }
    if !endpoints_ok(table) {
        return Err(TableRefusal::BadEndpoint);
    }
    Ok(())
}
