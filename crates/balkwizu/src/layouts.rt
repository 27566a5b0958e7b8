// The working run, and the run that chooses between it and the in-place run by the length of the list. A module can't have the name
// of a crate that it calls.
ghost use Rattle.std.specs.Prelude.{◌/◌, ◌%◌};
ghost use Rattle.machine.specs.Promise.{RunPromise};

use crate::one_word;
use result_code::code;

// Runs a list of calls on a table that is loaded once and stored once, with the promise of balkwizu_run, word for word: the
// parameters, the answer and every word left are those of balkwizu_run. The table is loaded after the entry's checks, and none of
// its words is read or written from then until the last call has run.
// C: uint32_t balkwizu_run_working(uint32_t *table, size_t table_len, const uint32_t *list, size_t list_len,
//                                  uint32_t *answers, size_t answers_len, uint32_t *holders, size_t holders_len)
#[unsafe(no_mangle)]
pub extern "C" fn balkwizu_run_working(
    table: &mut [u32],
    list: &[u32],
    answers: &mut [u32],
    holders: &mut [u32],
) -> u32
    ensures { RunPromise table.old list.now answers.old holders.old (result % 65536)
        (result / 65536) answers.new table.new holders.new }
{
    let ran = working::run_working(table, list, answers, holders);
    one_word(code(ran), ran.unwrap_or(0) as u32)
}

// Runs a list of calls, by the working run where the list is long enough for it, else in place, with the promise of balkwizu_run,
// word for word: the parameters, the answer and every word left are those of balkwizu_run.
// C: uint32_t balkwizu_run_by_length(uint32_t *table, size_t table_len, const uint32_t *list, size_t list_len,
//                                    uint32_t *answers, size_t answers_len, uint32_t *holders, size_t holders_len)
#[unsafe(no_mangle)]
pub extern "C" fn balkwizu_run_by_length(
    table: &mut [u32],
    list: &[u32],
    answers: &mut [u32],
    holders: &mut [u32],
) -> u32
    ensures { RunPromise table.old list.now answers.old holders.old (result % 65536)
        (result / 65536) answers.new table.new holders.new }
{
    let outcome = working::by_length::run_by_length(table, list, answers, holders);
    one_word(code(outcome), outcome.unwrap_or(0) as u32)
}
