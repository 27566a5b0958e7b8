// An access matrix in lent words: the rights of a holder on a target among n domains, n × n sets, holder by holder.
ghost use Rattle.std.specs.Prelude.{◌≡◌, ◌*◌, ◌^◌, ◌<◌, ◌≤◌, length, sum};
ghost use Rattle.machine.specs.Table.{domains};
ghost use Rattle.potential_theory.specs.Closure.{matrix_of};

use format::KIND_UNIT;
use table_layout::word;

// Returns the count of the sets of n domains.
pub fn power(n: u32) -> u32
    requires { n ≤ 16 }
    ensures { result ≡ 2 ^ n }
{
    1 << n
}

// Writes the matrix of a table into the lent words.
pub fn fill(table: &[u32], rights: &mut [u32])
    requires { length rights.old ≡ domains table.now * domains table.now }
    ensures { rights.new ≡ matrix_of table.now }
{
    for (i, held) in rights.iter_mut().enumerate() {
        *held = word(table, 1 + i) % KIND_UNIT;
    }
}

// Returns the sum of all sets as numbers.
pub fn sum(rights: &[u32]) -> u32
    requires { sum rights.now < 2 ^ 32 }
    ensures { result ≡ sum rights.now }
{
    rights.iter().sum()
}
