// Adds a list to totals (document 02 (e)): the list is run, and what it counts at each endpoint is added.
#![tactic(auto)]

mod sums;

ghost use Rattle.std.specs.Prelude.{◌≡◌};
ghost use Rattle.run_result.specs.Entry.{ran_code, ran_calls};
ghost use Rattle.totals_add.specs.Added.{no_totals, ListAdded};
ghost use Rattle.totals_add.specs.Counts.{Countable, CountsAdded};

use run_result::EntryRefusal;
use sums::{add_each, losses};
use table_layout::endpoints;
use totals_count::count_calls::count_calls;
use totals_count::waiting::waiting_counts;
use working::by_length::run_by_length;

// Totals in 64 bits, for as many endpoints as a table can have: sends answered 0, messages received, messages lost. Has three
// arrays, and not one of structs, so that each is added to by a short loop over neighbouring words.
#[derive(Clone, Copy, Debug, PartialEq, Eq)]
pub struct Tally {
    pub sent: [u64; 32],
    pub received: [u64; 32],
    pub lost: [u64; 32],
}

impl Tally {
    // Returns totals in which nothing is counted yet.
    pub fn new() -> Tally
        ensures { result ≡ no_totals }
    {
        Tally {
            sent: [0; 32],
            received: [0; 32],
            lost: [0; 32],
        }
    }

    // Runs a list from a table and adds what it counts to the totals of the table's endpoints. What was lost is computed from what
    // was sent, what was received and what waits, since the table's own lost count stops at its largest. A refused list adds
    // nothing.
    pub fn add_list(
        &mut self,
        table: &mut [u32],
        list: &[u32],
        answers: &mut [u32],
        holders: &mut [u32],
    ) -> Result<usize, EntryRefusal>
        ensures { ListAdded table.old list.now answers.old holders.old
            (record {
              code = ran_code result;
              calls = ran_calls result;
              table = table.new;
              answers = answers.new;
              holders = holders.new;
            })
            self.old self.new }
    {
        let before = waiting_counts(table);
        let calls = run_by_length(table, list, answers, holders)?;
        self.add_counts(table, list, answers, &before);
        Ok(calls)
    }

    // Adds what a list counts, by its answers, the table that it left, and what waited before it.
    fn add_counts(&mut self, table: &[u32], list: &[u32], answers: &[u32], before: &[u64; 32])
        requires { Countable table.now list.now answers.now before.now }
        ensures { CountsAdded table.now list.now answers.now before.now self.old self.new }
    {
        let m = endpoints(table) as usize;
        let after = waiting_counts(table);
        let counted = count_calls(list, answers);
        let full = losses(&counted, before, &after, m);
        add_each(&mut self.sent, &counted.sent, m);
        add_each(&mut self.received, &counted.received, m);
        add_each(&mut self.lost, &full, m);
    }
}
