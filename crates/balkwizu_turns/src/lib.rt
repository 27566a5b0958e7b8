// Calls handed in one by one and served by turns (document 02 (m)), for C, as the archive out/libbalkwizu_turns.a of this crate. It is
// separate from the kernel's, so that a firmware without turns doesn't link the step that a turn serves a call by.
// The state is 1 + 17 n words that the caller lends, where n is the table's count of domains: the place of the turn, then for each
// domain the count of its pending words, and sixteen words.
#![tactic(auto)]

mod release;
mod step;

ghost use Rattle.std.specs.Prelude.{◌/◌, ◌%◌};
ghost use Rattle.turns.specs.Promise.{BeginPromise, HandInPromise, TurnPromise, words, outcome};

use kernel::reports::code;

// Begins: sets every word of the state to 0, so that nothing is pending and the first turn starts at 0, and the holders to what the
// table says. Returns the first code that applies: 2 to 5 where the table is refused; 6 where the holders aren't one word a domain;
// 99 where the state isn't 1 + 17 n words; else 0. Where it is not 0 no word is changed.
// Total: accepts arbitrary words in slices of any length. Table, state and holders may not overlap.
// C: uint32_t balkwizu_turns_begin(const uint32_t *table, size_t table_len, uint32_t *state, size_t state_len,
//                                  uint32_t *holders, size_t holders_len)
#[unsafe(no_mangle)]
pub extern "C" fn balkwizu_turns_begin(table: &[u32], state: &mut [u32], holders: &mut [u32]) -> u32
    ensures { BeginPromise table.now state.old holders.old result state.new
        holders.new }
{
    let begun = turns::begin(table, state, holders);
    code(begun)
}

// Hands in the words of one call for a domain, which are appended to its pending ones. Returns the first code that applies:
//   0   the words are pending
//   2 to 5  the table is refused
//   35  the domain isn't below n
//   36  the words aren't exactly one call, no stray, with that domain as its caller
//   99  the state isn't 1 + 17 n words
//   37  the domain's pending words would exceed 16
// Where it is not 0 no word of the state is changed.
// Total: accepts arbitrary words in slices of any length and any value as the domain. The state may overlap neither the table nor
// the words.
// C: uint32_t balkwizu_hand_in(const uint32_t *table, size_t table_len, uint32_t *state, size_t state_len, uint32_t domain,
//                              const uint32_t *words, size_t words_len)
#[unsafe(no_mangle)]
pub extern "C" fn balkwizu_hand_in(
    table: &[u32],
    state: &mut [u32],
    domain: u32,
    words: &[u32],
) -> u32
    ensures { HandInPromise table.now state.old domain words.now result state.new }
{
    let handed = turns::hand_in(table, state, domain, words);
    code(handed)
}

// Serves the oldest call of the first domain that has one, searched from after the domain served last upward, and then from 0.
// Returns in the low 16 bits the first code that applies: 2 to 5 where the table is refused; 6 where the holders aren't one word a
// domain; 99 where the state isn't 1 + 17 n words; 6 where a call is pending and the answer has fewer than three words; else 0. The
// high 16 bits are 1 where a call was served, and 0 where the turn was refused, or idle because nothing was pending.
// A call that is served has three answer words, and the words after them are left as they were. The table and the holders are what
// a run of that call alone would leave. A turn that is idle or refused changes no word of the table, of the state, of the holders
// or of the answer.
// Total: accepts arbitrary words in slices of any length. Table, state, holders and answer may not overlap.
// C: uint32_t balkwizu_turn(uint32_t *table, size_t table_len, uint32_t *state, size_t state_len,
//                           uint32_t *holders, size_t holders_len, uint32_t *answer, size_t answer_len)
#[unsafe(no_mangle)]
pub extern "C" fn balkwizu_turn(
    table: &mut [u32],
    state: &mut [u32],
    holders: &mut [u32],
    answer: &mut [u32],
) -> u32
    ensures { TurnPromise (words table.old state.old holders.old answer.old)
        (outcome (result % 65536) (result / 65536)
        (words table.new state.new holders.new answer.new)) }
{
    let turned = turns::turn(table, state, holders, answer);
    let served = turned.map_or(0, |turned| turned.served());
    code(turned) + 65536 * served
}
