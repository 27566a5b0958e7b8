// Loads a table's endpoints and stores their queues (document 02 (l)): the queues as rings, the names side by side, and for each
// domain the endpoints that it owns as bits. All functions are total: they accept arbitrary words as a table.
#![tactic(auto, unfolding(crate::specs::Layout::has_queues))]

ghost use Rattle.std.specs.Prelude.{◌≡◌, cond, ◌%◌, length};
ghost use Rattle.working_load.specs.Layout.{has_queues, rings_of, stored_queues, names_of, owned_of};

use format::KIND_UNIT;
use format::tables::{ENDPOINT_WORDS, MOST_ENDPOINTS};
use reachability::bit;
use table_layout::{endpoint_at, endpoint_word};

// Returns whether there are at most 32 endpoints, words enough for them in the table, and twelve words lent for each.
fn has_queues(n: u32, m: u32, size: usize, lent: usize) -> bool
    ensures { result ≡ has_queues (n % 256) m size lent }
{
    let end = endpoint_at(n, m);
    m <= MOST_ENDPOINTS && end <= size && lent == ENDPOINT_WORDS * m as usize
}

// Loads the rings from the table's queues. They stay as they are where m is over 32, the table is too short, or their length isn't
// twelve words for each endpoint.
pub fn load_rings(table: &[u32], n: u32, m: u32, rings: &mut [u32])
    ensures { rings.new
        ≡ cond (has_queues (n % 256) m (length table.now) (length rings.old))
        (rings_of (n % 256) m table.now) rings.old }
{
    if !has_queues(n, m, table.len(), rings.len()) {
        return;
    }
    // Cuts the rings by index: a proof knows nothing of what is written to the parts that chunks_exact_mut lends.
    for e in 0..m {
        let start = endpoint_at(n, e);
        let end = start + ENDPOINT_WORDS;
        let from = ENDPOINT_WORDS * e as usize;
        let to = from + ENDPOINT_WORDS;
        ring::load(&table[start..end], &mut rings[from..to]);
    }
}

// Stores the rings to the table's queues. The table stays as it is where m is over 32, it is too short, or the rings' length isn't
// twelve words for each endpoint.
pub fn store_rings(rings: &[u32], n: u32, m: u32, table: &mut [u32])
    ensures { table.new
        ≡ cond (has_queues (n % 256) m (length table.old) (length rings.now))
        (stored_queues (n % 256) m rings.now table.old) table.old }
{
    if !has_queues(n, m, table.len(), rings.len()) {
        return;
    }
    // Cuts the table by index, as load_rings cuts the rings.
    for e in 0..m {
        let place = ENDPOINT_WORDS * e as usize;
        let behind = place + ENDPOINT_WORDS;
        let first = endpoint_at(n, e);
        let next = first + ENDPOINT_WORDS;
        ring::store(&rings[place..behind], &mut table[first..next]);
    }
}

// Returns the names of the first 32 endpoints, side by side, and 0 where there is no endpoint.
pub fn load_names(table: &[u32], n: u32, m: u32) -> [u32; 32]
    ensures { result ≡ names_of (n % 256) m table.now }
{
    let mut names = [0; 32];
    for e in 0..m.min(MOST_ENDPOINTS) {
        let word = endpoint_word(table, n, e, 0);
        names[e as usize] = word % KIND_UNIT;
    }
    names
}

// Returns which of the first 32 endpoints each domain owns, a bit for each. Only the low four bits of an owner's index count.
pub fn load_owned(table: &[u32], n: u32, m: u32) -> [u32; 16]
    ensures { result ≡ owned_of (n % 256) m table.now }
{
    let mut owned = [0; 16];
    let few = m.min(MOST_ENDPOINTS);
    for e in 0..few {
        let info = endpoint_word(table, n, e, 1);
        let owner = (info / 256 % 256 % 16) as usize;
        owned[owner] += bit(e);
    }
    owned
}
