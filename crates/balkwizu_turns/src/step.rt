// A single call for C: by it a line looks at its holders after each call (document 02 (h)). It is in this
// archive, which has the kernel's step for the turns: in the kernel's own a second caller of the step would cost the run its
// inlining.
ghost use Rattle.single_call.specs.Single.{CallOfWords};

// Runs the one call that words are, as they are in a list, on a table and puts its answer. Returns the first code that applies: 36
// where the words aren't exactly one call, 6 where the answer has fewer than three words, 2 to 5 where the table is refused, 6 where
// the holders aren't one word a domain; else 0. Where it isn't 0 no word is changed. The table, the holders and the three answer
// words are what a run of that call alone would leave, and answer words after the third are left as they were.
// Total: accepts arbitrary words in slices of any length. Table, holders and answer overlap neither each other nor the words.
// C: uint32_t balkwizu_step(uint32_t *table, size_t table_len, uint32_t *holders, size_t holders_len,
//                           const uint32_t *words, size_t words_len, uint32_t *answer, size_t answer_len)
#[unsafe(no_mangle)]
pub extern "C" fn balkwizu_step(
    table: &mut [u32],
    holders: &mut [u32],
    words: &[u32],
    answer: &mut [u32],
) -> u32
    ensures { CallOfWords table.old holders.old words.now answer.old result
        table.new holders.new answer.new }
{
    single_call::run_call(table, holders, words, answer)
}
