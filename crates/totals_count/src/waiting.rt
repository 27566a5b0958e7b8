// What waits at the endpoints of a table (document 02 (e)).
ghost use Rattle.std.specs.Prelude.{◌≡◌};
ghost use Rattle.machine.specs.Below.{words_below};
ghost use Rattle.machine.specs.Table.{endpoint};
ghost use Rattle.machine.specs.Queue.{waiting};

use format::KIND_UNIT;
use table_layout::{domains, endpoint_word};

// Returns how many messages wait at each endpoint, for as many as a table can have. Total: accepts arbitrary words as a table.
pub fn waiting_counts(table: &[u32]) -> [u64; 32]
    ensures { result ≡ words_below 32 (λ e. waiting (endpoint table.now e)) }
{
    let n = domains(table);
    let mut counts = [0; 32];
    for (e, count) in counts.iter_mut().enumerate() {
        let word = endpoint_word(table, n, e as u32, 2);
        *count = u64::from(word % KIND_UNIT);
    }
    counts
}
