// The holders computed from a table row by row (document 02 (h)): the rights that one domain holds are side by side.
ghost use Rattle.std.specs.Prelude.{◌≡◌, ◌<◌, length};
ghost use Rattle.machine.specs.Below.{words_below};
ghost use Rattle.machine.specs.Table.{domains};
ghost use Rattle.machine.specs.Holders.{holders_of};
ghost use Rattle.holders_theory.specs.Noted.{room_for};
ghost use Rattle.holders.specs.Rows.{HoldersFit, with_row};

use crate::bits::held;
use format::tables::MOST_DOMAINS;
use reachability::bit;
use table_layout::rights_at;

// Returns whether there are at most 16 domains, as many words are lent, and the table has all their rights words.
pub fn fillable(n: u32, size: usize, lent: usize) -> bool
    ensures { result ≡ room_for n size lent }
{
    if MOST_DOMAINS < n {
        return false;
    }
    let count = n as usize;
    (lent == count) & (count * count < size)
}

// Adds what one domain holds: its bit in the word of each domain that it has a right on.
fn add_row(table: &[u32], n: u32, h: u32, holders: &mut [u32])
    requires fit { HoldersFit table.now n holders.old }
    requires is_domain { h < n }
    ensures { holders.new ≡ words_below n (with_row table.now n h holders.old) }
{
    let holder = bit(h);
    for (g, word) in holders.iter_mut().enumerate() {
        let at = rights_at(n, h, g as u32);
        *word |= held(table[at], holder);
    }
}

// Computes the words of all n domains.
pub fn fill_rows(table: &[u32], n: u32, holders: &mut [u32])
    requires fit { HoldersFit table.now n holders.old }
    requires domains { n ≡ domains table.now }
    ensures { holders.new ≡ holders_of table.now }
{
    holders.fill(0);
    for h in 0..n {
        add_row(table, n, h, holders);
    }
}
