// Runs the calls of a list one after the other, in the lent table's own words (document 01, 'The calls'), with the holders worked
// out first and kept call by call.
ghost use Rattle.std.specs.Prelude.{◌≡◌, ◌*◌, ◌≤◌, length};
ghost use Rattle.machine.specs.Table as machine;
ghost use Rattle.machine.specs.Check.{Accepted};
ghost use Rattle.machine.specs.Call.{split};
ghost use Rattle.kernel.specs.Run.{AllRun};

use crate::serve::answer_call;
use answers::by_value::put;
use calls::split::{second_at, width};
use holders::fill;
use table_layout::{domains, endpoints};

// Runs the calls of a list and returns how many there are.
pub fn run_calls(table: &mut [u32], list: &[u32], answers: &mut [u32], holders: &mut [u32]) -> usize
    requires accepted { Accepted table.old }
    requires not_too_long { length list.now ≤ 4096 }
    requires has_space { 3 * length (split list.now) ≤ length answers.old }
    requires one_a_domain { length holders.old ≡ machine.domains table.old }
    ensures { AllRun table.old list.now answers.old result answers.new table.new
        holders.new }
{
    fill(table, holders);
    let n = domains(table);
    let m = endpoints(table);
    let mut calls: usize = 0;
    let mut i: usize = 0;
    // Steps by each call's own width, which no `for` over the places does.
    while i < list.len() {
        let first = list[i];
        let second = second_at(list, i);
        // The next place is known before the call is served, so the processor can fetch the next call meanwhile.
        i += width(second);
        let words = answer_call(table, n, m, holders, first, second);
        let at = 3 * calls;
        let end = at + 3;
        put(&mut answers[at..end], words);
        calls += 1;
    }
    calls
}
