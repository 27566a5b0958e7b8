// Reads a table from a program's input: a word with its length, then its words (document 01, 'Into firmware and onto the bench').
ghost use Rattle.std.specs.Prelude.{min, ◌≡◌, length};
ghost use Rattle.input_words.specs.TableInput.{no_table, table_end, table_of, after_table, table_wanted};
ghost use Rattle.text.specs.Write.{Fills};

use crate::words::{fill, word_at};
use format::tables::LONGEST_TABLE;

// Returns the index where the table's bytes end by the length word, or the input's length where that is lower.
fn table_end(bytes: &[u8]) -> usize
    ensures { result ≡ min (table_end bytes.now) (length bytes.now) }
{
    let length = word_at(bytes, 0) as usize;
    bytes.len().min(4 + 4 * length)
}

// Returns whether the input has no whole table: under 4 bytes, a length above the longest, or fewer words than its length says.
#[tactic(auto, unfolding(crate::specs::TableInput::no_table))]
pub fn no_table(bytes: &[u8]) -> bool
    ensures { result ≡ no_table bytes.now }
{
    let length = word_at(bytes, 0) as usize;
    bytes.len() < 4 || LONGEST_TABLE < length || bytes.len() < 4 + 4 * length
}

// Returns how many more bytes to read, where the input so far is `bytes`: first the length word, then the table that it announces.
#[tactic(auto, unfolding(crate::specs::TableInput::table_wanted))]
pub fn table_wanted(bytes: &[u8]) -> usize
    ensures { result ≡ table_wanted bytes.now }
{
    let have = bytes.len();
    if have < 4 {
        return 4 - have;
    }
    let words = word_at(bytes, 0) as usize;
    if LONGEST_TABLE < words {
        return 0;
    }
    (4 + 4 * words).saturating_sub(have)
}

// Fills `table` from the front with the table's words, as many as fit, and returns how many.
pub fn read_table(bytes: &[u8], table: &mut [u32]) -> usize
    ensures { Fills (table_of bytes.now) table.old result table.new }
{
    if bytes.len() < 4 {
        return 0;
    }
    let end = table_end(bytes);
    fill(&bytes[4..end], table)
}

// Returns the bytes after the table.
#[tactic(auto, using(crate::proofs::TableLaws::rest_part))]
pub fn after_table(bytes: &[u8]) -> &[u8]
    ensures { result.now ≡ after_table bytes.now }
{
    let start = table_end(bytes);
    &bytes[start..]
}
