// Reads the table: its length word, then its words, which are checked (document 02 (e): as linerun takes it).
ghost use Rattle.std.specs.Prelude.{◌≡◌, ◌≤◌, length};
ghost use Rattle.linetotals_run.specs.declared.Stage.{Stage};
ghost use Rattle.linetotals_run.specs.Step.{next_or_over, length_read, table_checked, table_read, table_stored};

use crate::{Counts, Phase, ReadRefusal, Stage};
use format::tables::LONGEST_TABLE;
use input_words::words::{fill, word_at};
use kernel::check;
use table_check::TableRefusal;
use table_layout::endpoints;
use totals_add::Tally;
use totals_count::waiting::waiting_counts;

// Goes on by the table's length word. An empty table is refused as the check refuses it.
#[tactic(auto, unfolding(crate::specs::Step::length_read))]
pub fn length_read(stage: Stage, bytes: &[u8]) -> Result<Stage, ReadRefusal>
    ensures { next_or_over stage result ≡ length_read stage bytes.now }
{
    if bytes.len() < 4 {
        return Err(ReadRefusal::CutShort);
    }
    let words = word_at(bytes, 0);
    if LONGEST_TABLE < words as usize {
        return Err(ReadRefusal::CutShort);
    }
    if words == 0 {
        return Err(ReadRefusal::BadTable(TableRefusal::BadHeader));
    }
    Ok(stage.at(Phase::TableWords(words)))
}

// Checks a table, and goes on to the lists where it is accepted.
#[tactic(auto, unfolding(crate::specs::Step::table_checked))]
fn table_checked(table: &[u32]) -> Result<Stage, ReadRefusal>
    ensures { (stage : Stage) → next_or_over stage result ≡ table_checked stage table.now }
{
    check(table)?;
    let start = waiting_counts(table);
    let counts = Counts {
        words: table.len(),
        endpoints: endpoints(table) as usize,
        count: 0,
        start,
        tally: Tally::new(),
    };
    Ok(Stage {
        phase: Phase::FirstLength,
        counts,
    })
}

// Goes on by the table's n words, which it stores at the front of `table`. The caller must lend space for them.
#[tactic(auto, unfolding(crate::specs::Step::table_read, crate::specs::Step::table_stored))]
pub fn table_read(n: u32, bytes: &[u8], table: &mut [u32]) -> Result<Stage, ReadRefusal>
    requires { n ≤ length table.old }
    ensures value { (stage : Stage) → next_or_over stage result ≡ table_read n stage bytes.now }
    ensures table_after { table.new ≡ table_stored n bytes.now table.old }
{
    let end = 4 * (n as usize);
    if bytes.len() < end {
        return Err(ReadRefusal::CutShort);
    }
    let words = fill(&bytes[0..end], table);
    table_checked(&table[0..words])
}
