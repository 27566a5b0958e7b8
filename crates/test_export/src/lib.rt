// The public step as a C function, for the bench only: no header declares it and the archive for the firmware doesn't have it
// (`firmware/make-archive test_export` makes an archive of its own). With it `kernel::step` is run beside the reference implementation.
#![tactic(auto)]

pub mod both_ways;
pub mod queues;

ghost use Rattle.std.specs.Prelude.{◌≡◌};
ghost use Rattle.calls.specs.Split.{call_of};
ghost use Rattle.single_call.specs.Single.{SingleCall};
ghost use Rattle.test_export.specs.Exported.{second_given};

// Returns a second word as C passes it: the word, or nothing where `has` is 0.
fn given(word: u32, has: u32) -> Option<u32>
    ensures { result ≡ second_given word has }
{
    (has != 0).then_some(word)
}

// Runs one call on any table. Returns 0, or the table's 2 to 5, or 6 where the holders aren't one word a domain; 99, which no paper
// uses, is for an answer space under three words. Where the result isn't 0 nothing is changed. Answer words after the third stay as
// they were. Table, answer and holders may not overlap.
// C: uint32_t balkwizu_test_step(uint32_t *table, size_t table_len, uint32_t first, uint32_t second, uint32_t has,
//                                uint32_t *answer, size_t answer_len, uint32_t *holders, size_t holders_len)
#[unsafe(no_mangle)]
pub extern "C" fn balkwizu_test_step(
    table: &mut [u32],
    first: u32,
    second: u32,
    has: u32,
    answer: &mut [u32],
    holders: &mut [u32],
) -> u32
    ensures { SingleCall table.old (call_of first (second_given second has)) answer.old holders.old
        result table.new answer.new holders.new }
{
    let word = given(second, has);
    single_call::answer_call(table, first, word, answer, holders)
}
