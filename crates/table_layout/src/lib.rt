// The places of a table's words, and how they are read (document 01, 'The table'). Each function is total: it accepts
// arbitrary words as a table, and a word past the end reads as 0. A caller that reads often reads n, the count of domains,
// once and passes it. n has eight bits in a table's first word, so only eight are used where n is squared.
#![tactic(auto)]

ghost use Rattle.std.specs.Prelude.{◌≡◌, ◌+◌, ◌%◌, get_or};
ghost use Rattle.machine.specs.Word.{payload};
ghost use Rattle.machine.specs.Table.{domains, endpoints, rights_at, endpoint_at};

use format::KIND_UNIT;
use format::tables::ENDPOINT_WORDS;
use rights::Rights;

// Returns the word at a place, or 0 past the end.
pub fn word(table: &[u32], at: usize) -> u32
    ensures { result ≡ get_or table.now at 0 }
{
    table.get(at).copied().unwrap_or(0)
}

// Returns n, the count of domains.
#[tactic(auto, unfolding(machine::specs::Table::domains))]
pub fn domains(table: &[u32]) -> u32
    ensures { result ≡ domains table.now }
{
    let header = word(table, 0);
    header / 256 % 256
}

// Returns m, the count of endpoints.
#[tactic(auto, unfolding(machine::specs::Table::endpoints))]
pub fn endpoints(table: &[u32]) -> u32
    ensures { result ≡ endpoints table.now }
{
    let header = word(table, 0);
    header % 256
}

// Returns the place of the rights word of a holder on a target, among n domains.
#[tactic(auto, using(crate::proofs::Places::row_fits))]
pub fn rights_at(n: u32, holder: u32, target: u32) -> usize
    ensures { result ≡ rights_at n holder target }
{
    1 + holder as usize * n as usize + target as usize
}

// Returns the place of the first of an endpoint's twelve words, among n domains.
#[tactic(auto, using(crate::proofs::Places::square_small))]
pub fn endpoint_at(n: u32, e: u32) -> usize
    ensures { result ≡ endpoint_at (n % 256) e }
{
    let few = (n % 256) as usize;
    1 + few * few + ENDPOINT_WORDS * e as usize
}

// Returns the rights of a holder on a target, among n domains.
pub fn rights(table: &[u32], n: u32, holder: u32, target: u32) -> Rights
    ensures { result.bits ≡ payload (get_or table.now (rights_at n holder target) 0) }
{
    let at = rights_at(n, holder, target);
    let held = word(table, at);
    Rights {
        bits: held % KIND_UNIT,
    }
}

// Returns word i from an endpoint's first word on, among n domains.
#[tactic(auto, using(crate::proofs::Places::square_small))]
pub fn endpoint_word(table: &[u32], n: u32, e: u32, i: u32) -> u32
    ensures { result ≡ get_or table.now (endpoint_at (n % 256) e + i) 0 }
{
    let at = endpoint_at(n, e) + i as usize;
    word(table, at)
}
