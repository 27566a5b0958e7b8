// What linetotals reads: the table, then each list with its length in words before it (document 02 (e), end-of-shift totals).
// Decodes the bytes before a list, and says how many of them are wanted.
#![tactic(auto)]

ghost use Rattle.std.specs.Prelude.{◌≡◌};
ghost use Rattle.linetotals_input.specs.Input.{head_wanted};
ghost use Rattle.linetotals_input.specs.Next.{list_refusal_code, next_of};

use format::calls::LONGEST_LIST;
use input_words::words::word_at;
use result_code::Coded;

// The most bytes that are wanted at once: those of a list of 4,096 words and a length word.
pub const MOST_READ: usize = 4 * (LONGEST_LIST + 1);

// Why no list follows although the input goes on.
#[derive(Clone, Copy, Debug, PartialEq, Eq)]
pub enum ListRefusal {
    TooMuch, // 1: one list too many, or one with too many words
    CutShort, // 7: its length word is cut short
}

impl Coded for ListRefusal {
    ghost code_of = { list_refusal_code };

    fn code(self) -> u32 {
        match self {
            ListRefusal::TooMuch => 1,
            ListRefusal::CutShort => 7,
        }
    }
}

// Returns how many words the next list has, by the bytes before it, where `left` more lists may come: None at the input's end.
#[tactic(auto, unfolding(crate::specs::Next::next_of))]
pub fn next_list(left: usize, bytes: &[u8]) -> Result<Option<u32>, ListRefusal>
    ensures { result ≡ next_of left bytes.now }
{
    if bytes.is_empty() {
        return Ok(None);
    }
    if left == 0 {
        return Err(ListRefusal::TooMuch);
    }
    if bytes.len() < 4 {
        return Err(ListRefusal::CutShort);
    }
    let words = word_at(bytes, 0);
    if LONGEST_LIST < words as usize {
        return Err(ListRefusal::TooMuch);
    }
    Ok(Some(words))
}

// Returns how many bytes to read of those before a list, where `left` more lists may come. After the last list that there may be
// it is 1, since one byte is too many.
#[tactic(auto, unfolding(crate::specs::Input::head_wanted))]
pub fn head_wanted(left: usize) -> usize
    ensures { result ≡ head_wanted left }
{
    if left == 0 { 1 } else { 4 }
}
