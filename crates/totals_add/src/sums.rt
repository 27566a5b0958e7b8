// Sums over the endpoints: what was lost, and totals with counts added (document 02 (e)).
ghost use Rattle.std.specs.Prelude.{◌≡◌, ◌≤◌, slice_index};
ghost use Rattle.totals_add.specs.Balance.{CanBalance, Balances};
ghost use Rattle.totals_add.specs.Added.{added_below};

use totals_count::count_calls::Counted;

// Returns what was lost at each endpoint below m: the sends and what waited before them, less the receives and what waits after.
pub fn losses(counted: &Counted, before: &[u64; 32], after: &[u64; 32], m: usize) -> [u64; 32]
    requires { CanBalance m counted.now.sent counted.now.received before.now after.now }
    ensures { Balances m counted.now.sent counted.now.received before.now after.now result }
{
    let received = &counted.received;
    let mut lost = [0; 32];
    for (e, sent) in counted.sent[..m].iter().enumerate() {
        lost[e] = sent + before[e] - (received[e] + after[e]);
    }
    lost
}

// Adds to each total below m the count of its endpoint, in 64 bits.
pub fn add_each(totals: &mut [u64; 32], counts: &[u64; 32], m: usize)
    requires { m ≤ 32 }
    ensures { totals.new ≡ added_below m totals.old (λ e. slice_index counts.now e) }
{
    for (e, count) in counts[..m].iter().enumerate() {
        totals[e] = totals[e].wrapping_add(*count);
    }
}
