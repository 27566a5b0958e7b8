// Both runs of a list as one C function, for the bench only: document 02 (l) says that they give the same, and here one contract says
// it of both functions.
ghost use Rattle.std.specs.Prelude.{◌≡◌};
ghost use Rattle.test_export.specs.BothWays.{same_end, SameBothWays};

use result_code::code;
use run_result::EntryRefusal;

// Returns 1 where two runs ended the same, by the same code and after as many calls, else 0.
fn same_end(a: Result<usize, EntryRefusal>, b: Result<usize, EntryRefusal>) -> u32
    ensures { result ≡ same_end a b }
{
    let same_code = code(a) == code(b);
    let same_calls = a.unwrap_or(0) == b.unwrap_or(0);
    u32::from(same_code && same_calls)
}

// Runs a list in place on a table, and on the working layout of a copy, with an answer space and holders for each. Returns 1 where
// both ended the same, else 0. Where the copies have the same words as what they copy, it returns 1 and they have the same words
// again. None of the slices may overlap.
// C: uint32_t balkwizu_test_both_ways(uint32_t *table, size_t table_len, uint32_t *copy, size_t copy_len,
//                                     const uint32_t *list, size_t list_len, uint32_t *answers, size_t answers_len,
//                                     uint32_t *copied_answers, size_t copied_answers_len, uint32_t *holders, size_t holders_len,
//                                     uint32_t *copied_holders, size_t copied_holders_len)
#[unsafe(no_mangle)]
pub extern "C" fn balkwizu_test_both_ways(
    table: &mut [u32],
    copy: &mut [u32],
    list: &[u32],
    answers: &mut [u32],
    copied_answers: &mut [u32],
    holders: &mut [u32],
    copied_holders: &mut [u32],
) -> u32
    ensures { copy.old ≡ table.old
        → copied_answers.old ≡ answers.old
        → copied_holders.old ≡ holders.old
        → SameBothWays result table.new copy.new answers.new copied_answers.new
        holders.new copied_holders.new }
{
    let in_place = kernel::run(table, list, answers, holders);
    let working = working::run_working(copy, list, copied_answers, copied_holders);
    same_end(in_place, working)
}
