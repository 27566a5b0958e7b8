// The kernel: what a call and a list of calls do to a lent table and to the holders kept beside it, and what they answer. A table
// is checked before any call runs (document 01, 'Where each number is checked'; the holders: document 02, (h)).
#![tactic(auto)]

mod endpoint_calls;
mod lent_lengths;
pub mod reports;
mod rights_calls;
mod run_list;
mod serve;

ghost use Rattle.std.specs.Prelude.{◌≡◌};
ghost use Rattle.machine.specs.Check.{table_code};
ghost use Rattle.machine.specs.Entry.{entry_code};
ghost use Rattle.machine.specs.Promise.{RunPromise};
ghost use Rattle.table_check.specs.Checked.{checked_code};
ghost use Rattle.calls.specs.Split.{call_of};
ghost use Rattle.kernel.specs.Step.{StepPromise};
ghost use Rattle.kernel.specs.Entered.{entered_code};
ghost use Rattle.run_result.specs.Entry.{ran_code, ran_calls};

use answers::Answer;
use format::calls::LONGEST_LIST;
use holders::fill;
use lent_lengths::{has_space, one_a_domain};
use reports::enter_step;
use run_list::run_calls;
use run_result::EntryRefusal;
use serve::answer_call;
use table_check::TableRefusal;
use table_layout::{domains, endpoints};

// Checks a table by itself.
pub fn check(table: &[u32]) -> Result<(), TableRefusal>
    ensures { checked_code result ≡ table_code table.now }
{
    table_check::check(table)
}

// Runs one call by itself, as a run of one call does, and returns its answer. Total: accepts arbitrary words as the table and as
// the holders.
pub fn step(
    table: &mut [u32],
    first: u32,
    second: Option<u32>,
    holders: &mut [u32],
) -> Result<Answer, EntryRefusal>
    ensures { StepPromise table.old (call_of first second) holders.old result table.new
        holders.new }
{
    enter_step(table, holders.len())?;
    fill(table, holders);
    let n = domains(table);
    let m = endpoints(table);
    Ok(answer_call(table, n, m, holders, first, second))
}

// Tests the entry of a run, place by place, with so many words lent for the answers and for the holders.
pub fn enter(table: &[u32], list: &[u32], space: usize, lent: usize) -> Result<(), EntryRefusal>
    ensures { entered_code result ≡ entry_code table.now list.now space lent }
{
    if LONGEST_LIST < list.len() {
        return Err(EntryRefusal::ListTooLong);
    }
    check(table)?;
    if !has_space(list, space) {
        return Err(EntryRefusal::SpaceTooSmall);
    }
    if !one_a_domain(table, lent) {
        return Err(EntryRefusal::BadHolders);
    }
    Ok(())
}

// Runs a list of calls and returns how many there are. Total: accepts arbitrary words as the table, the list, the answer space and
// the holders.
pub fn run(
    table: &mut [u32],
    list: &[u32],
    answers: &mut [u32],
    holders: &mut [u32],
) -> Result<usize, EntryRefusal>
    ensures { RunPromise table.old list.now answers.old holders.old (ran_code result)
        (ran_calls result) answers.new table.new holders.new }
{
    enter(table, list, answers.len(), holders.len())?;
    Ok(run_calls(table, list, answers, holders))
}
