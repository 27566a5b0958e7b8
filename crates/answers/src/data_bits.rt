// What a domain has, as the bits of a data word (document 01, 'The calls'): the endpoints that it owns, and its rights on eight
// targets. Both loops go from the last to the first, so each step shifts up what is there. What passes 32 bits is cut off. Both
// have the precondition that the words are in the table.
ghost use Rattle.std.specs.Prelude.{◌≡◌, ◌%◌, ◌^◌, ◌≤◌, length};
ghost use Rattle.machine.specs.Table.{domains, endpoints, rights_at, endpoint_at};
ghost use Rattle.machine.specs.Machine.{owned_bits, rights_bits};
ghost use Rattle.answers.specs.Eight.{Eight};

use format::KIND_UNIT;
use table_layout::{endpoint_at, rights_at};

// Returns a word in which bit e is set for each endpoint e that the caller owns.
pub fn owned_bits(table: &[u32], n: u32, m: u32, caller: u32) -> u32
    requires n_is_domains { n ≡ domains table.now }
    requires m_is_endpoints { m ≡ endpoints table.now }
    requires endpoints_in_table { endpoint_at (n % 256) m ≤ length table.now }
    ensures { result ≡ owned_bits table.now caller % 2 ^ 32 }
{
    let mut bits = 0;
    for e in (0..m).rev() {
        bits = bits % 0x8000_0000 * 2;
        let at = endpoint_at(n, e) + 1;
        let owns = table[at] / 256 % 256 == caller;
        bits += u32::from(owns);
    }
    bits
}

// Returns the rights of the caller on the targets from low up to high, four bits each.
pub fn rights_bits(table: &[u32], n: u32, caller: u32, low: u32, high: u32) -> u32
    requires n_is_domains { n ≡ domains table.now }
    requires eight { Eight n low high }
    requires row_in_table { rights_at n caller n ≤ length table.now }
    ensures { result ≡ rights_bits table.now caller low % 2 ^ 32 }
{
    let mut bits = 0;
    for target in (low..high).rev() {
        let at = rights_at(n, caller, target);
        let held = table[at] % KIND_UNIT;
        bits = ((u64::from(bits) * 16 + u64::from(held)) % 0x1_0000_0000) as u32;
    }
    bits
}
