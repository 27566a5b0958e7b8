// Who is joined to whom in a table, as words, and the connected component of a domain by them (document 02 (j)): bit u of word v is
// set where either of u and v has a right on the other.
ghost use Rattle.std.specs.Prelude.{◌≡◌, ◌<◌, ◌≤◌, take};
ghost use Rattle.machine.specs.Table.{domains};
ghost use Rattle.reachability.specs.Chain.{link_words};
ghost use Rattle.isolation_theory.specs.Component.{joined, component};

use reachability::steps::{Steps, step_words};
use reachability::{bit, closure};
use table_layout::rights;

// Returns whether either of two domains has a right on the other.
fn joins(table: &[u32], n: u32, u: u32, v: u32) -> bool
    requires { n ≡ domains table.now }
    ensures { result ≡ joined table.now u v }
{
    rights(table, n, u, v).has_any() | rights(table, n, v, u).has_any()
}

// The joins of a table of n domains.
#[derive(Drop)]
struct TableJoins<'a> {
    table: &'a [u32],
    n: u32,
    ghost counted: { n ≡ domains table.now },
}

impl<'a> Steps for TableJoins<'a> {
    ghost has = { λ joins. joined joins.table.now };

    // Returns whether either of two domains has a right on the other.
    fn has_step(&self, u: u32, v: u32) -> bool {
        joins(self.table, self.n, u, v)
    }
}

// Returns the words of all n domains, from the first place on.
fn joined_words(table: &[u32], n: u32) -> [u32; 16]
    requires domains { n ≡ domains table.now }
    requires few { n ≤ 16 }
    ensures { take n result ≡ link_words n (joined table.now) }
{
    step_words(n, &TableJoins { table, n })
}

// Returns the connected component of a domain below n.
pub fn members(table: &[u32], n: u32, domain: u32) -> u32
    requires domains { n ≡ domains table.now }
    requires few { n ≤ 16 }
    requires is_domain { domain < n }
    ensures { result ≡ component table.now domain }
{
    let words = joined_words(table, n);
    closure(&words[..n as usize], bit(domain))
}
