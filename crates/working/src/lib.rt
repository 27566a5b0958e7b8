// The run of a list on a working layout (document 02 (l)): the lent table is loaded once, after the entry's checks, and stored
// once, at the end. In between no word of it is read or written: the calls run on the rights as rows, the queues as rings, the
// names and the endpoints owned.
#![tactic(auto)]

pub mod by_length;
mod run_list;
mod serve;

ghost use Rattle.std.specs.Prelude.{◌≡◌, ◌*◌, ◌≤◌, length};
ghost use Rattle.machine.specs.Check.{Accepted};
ghost use Rattle.machine.specs.Call.{split};
ghost use Rattle.machine.specs.Table as machine;
ghost use Rattle.machine.specs.Promise.{RunPromise};
ghost use Rattle.kernel.specs.Run.{AllRun};
ghost use Rattle.run_result.specs.Entry.{ran_code, ran_calls};

use format::tables::{ENDPOINT_PLACES, ENDPOINT_WORDS};
use holders::fill;
use kernel::enter;
use rights_matrix::RightsMatrix;
use run_list::run_list;
use run_result::EntryRefusal;
use table_layout::{domains, endpoints};
use working_endpoint_calls::hint_place;
use working_load::{load_names, load_owned, load_rings, store_rings};

// Returns the hints for the names: at the index that a name gives, the endpoint that has it. Of two names with one index the later
// stays. No answer depends on the hints, since a hint is used only where its endpoint has the name.
fn make_hints(names: &[u32; 32], m: u32) -> [u8; 1024] {
    let mut hints = [0u8; 1024];
    for (e, &name) in names.iter().enumerate().take(m as usize) {
        hints[hint_place(name)] = e as u8;
    }
    hints
}

// Runs the calls of a list on a table that it loads before and stores after, and returns how many they were. The queues are loaded
// into the words lent for the rings.
fn run_on_rings(
    table: &mut [u32],
    rings: &mut [u32],
    list: &[u32],
    answers: &mut [u32],
    holders: &mut [u32],
) -> usize
    requires accepted { Accepted table.old }
    requires rings_len { length rings.old ≡ 12 * machine.endpoints table.old }
    requires list_len_bound { length list.now ≤ 4096 }
    requires list_in_bounds { 3 * length (split list.now) ≤ length answers.old }
    requires holders_len { length holders.old ≡ machine.domains table.old }
    ensures { AllRun table.old list.now answers.old result answers.new table.new
        holders.new }
{
    let n = domains(table);
    let m = endpoints(table);
    let mut rows = RightsMatrix::load(table, n);
    load_rings(table, n, m, rings);
    let names = load_names(table, n, m);
    let owned = load_owned(table, n, m);
    fill(table, holders);
    let hints = make_hints(&names, m);
    let calls = run_list(
        n, m, &mut rows, rings, &names, &hints, &owned, list, answers, holders,
    );
    rows.store(n, table);
    store_rings(rings, n, m, table);
    calls
}

// Runs the calls of a list, with words for as many rings as the table has endpoints, and returns how many they were.
fn run_calls(table: &mut [u32], list: &[u32], answers: &mut [u32], holders: &mut [u32]) -> usize
    requires accepted { Accepted table.old }
    requires list_len_bound { length list.now ≤ 4096 }
    requires list_in_bounds { 3 * length (split list.now) ≤ length answers.old }
    requires holders_len { length holders.old ≡ machine.domains table.old }
    ensures { AllRun table.old list.now answers.old result answers.new table.new
        holders.new }
{
    let mut words = [0u32; ENDPOINT_WORDS * ENDPOINT_PLACES];
    let end = ENDPOINT_WORDS * endpoints(table) as usize;
    run_on_rings(table, &mut words[0..end], list, answers, holders)
}

// Runs a list of calls on any table, with any answer space and any words for the holders, and returns how many they were. It keeps
// the promise of `kernel::run`.
pub fn run_working(
    table: &mut [u32],
    list: &[u32],
    answers: &mut [u32],
    holders: &mut [u32],
) -> Result<usize, EntryRefusal>
    ensures { RunPromise table.old list.now answers.old holders.old (ran_code result)
        (ran_calls result) answers.new table.new holders.new }
{
    enter(table, list, answers.len(), holders.len())?;
    Ok(run_calls(table, list, answers, holders))
}
