// What linerun reads: the table, then the list's words up to word 4,097 (document 01, 'Into firmware and onto the bench').
// This file says which input code 7 refuses and how many more bytes are wanted. Module stage says how far the reading is, and module
// reading goes from one stage to the next, by reads of crate reader, until nothing more is wanted.
#![tactic(auto)]

pub mod reading;
pub mod stage;

ghost use Rattle.std.specs.Prelude.{◌≡◌};
ghost use Rattle.linerun_input.specs.Input.{unreadable, wanted};

use format::calls::LONGEST_LIST;
use input_words::table_input::{after_table, no_table, table_wanted};

// The bytes of 4,097 list words, at which the reading stops.
const LIST_BYTES: usize = 4 * (LONGEST_LIST + 1);

// Returns whether code 7 refuses the input.
#[tactic(auto, unfolding(crate::specs::Input::unreadable, crate::specs::Input::left_over))]
pub fn unreadable(bytes: &[u8]) -> bool
    ensures { result ≡ unreadable bytes.now }
{
    if no_table(bytes) {
        return true;
    }
    let rest = after_table(bytes).len();
    rest < LIST_BYTES && rest % 4 != 0
}

// Returns how many more bytes to read, where the input so far is `bytes`. It is 0 where no further byte can matter.
#[tactic(auto, unfolding(crate::specs::Input::wanted))]
pub fn wanted(bytes: &[u8]) -> usize
    ensures { result ≡ wanted bytes.now }
{
    if no_table(bytes) {
        return table_wanted(bytes);
    }
    let rest = after_table(bytes).len();
    LIST_BYTES.saturating_sub(rest)
}
