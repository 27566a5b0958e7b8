// A run that chooses between the in-place run and the working run by the length of the list (document 02 (l)). Short lists run on
// the lent table, long ones on the working layout, which loads and stores the table. Both keep one promise, so no contract depends
// on where the two cross. That length is measured.
ghost use Rattle.machine.specs.Promise.{RunPromise};
ghost use Rattle.run_result.specs.Entry.{ran_code, ran_calls};

use run_result::EntryRefusal;

// The least length, in words, of a list that runs on the working layout (docs/BENCHMARKS.md, `bench speed --lengths`). No length is
// right for all calls: at this one, a list of sends that is just long enough and one of look ups that is just too short lose about
// as much.
const LONG_WORDS: usize = 128;

// Runs a list of calls on any table, with any answer space and any words for the holders, and returns how many they were. It keeps
// the promise of `kernel::run` and `crate::run_working`.
pub fn run_by_length(
    table: &mut [u32],
    list: &[u32],
    answers: &mut [u32],
    holders: &mut [u32],
) -> Result<usize, EntryRefusal>
    ensures { RunPromise table.old list.now answers.old holders.old (ran_code result)
        (ran_calls result) answers.new table.new holders.new }
{
    if list.len() < LONG_WORDS {
        return kernel::run(table, list, answers, holders);
    }
    crate::run_working(table, list, answers, holders)
}
