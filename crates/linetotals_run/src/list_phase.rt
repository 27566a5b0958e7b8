// Reads a list and runs it, and reads the bytes before a list (document 02 (e), end-of-shift totals).
ghost use Rattle.std.specs.Prelude.{◌≤◌, ◌<◌, ◌≡◌, length};
ghost use Rattle.run_result.specs.Entry.{ran_code};
ghost use Rattle.linetotals_input.specs.Input.{most_lists};
ghost use Rattle.linetotals_run.specs.Step.{next_or_over, head_read, list_ran, list_read, Left};

use crate::{Counts, MOST_LISTS, Phase, ReadRefusal, Stage};
use input_words::words::fill;
use linetotals_input::next_list;
use result_code::Coded;
use run_result::EntryRefusal;
use table_layout::domains;
use totals_add::Tally;

// Goes on by the bytes before a list.
#[tactic(auto, unfolding(crate::specs::Step::head_read))]
pub fn head_read(stage: Stage, head: &[u8]) -> Stage
    ensures { result ≡ head_read stage head.now }
{
    match next_list(MOST_LISTS.saturating_sub(stage.counts.count), head) {
        Ok(Some(n)) => stage.at(Phase::ListWords(n)),
        Ok(None) => stage.at(Phase::Over(0)),
        Err(refusal) => stage.at(Phase::Over(refusal.code())),
    }
}

// Goes on after a list that was run, by the totals with it and by the bytes before the next list. A list that was refused ends the
// lists. The caller must have counted fewer lists than there may be.
#[tactic(auto, unfolding(crate::specs::Step::list_ran, crate::specs::Step::counted))]
fn list_ran(
    stage: Stage,
    ran: Result<usize, EntryRefusal>,
    tally: Tally,
    head: &[u8],
) -> Result<Stage, ReadRefusal>
    requires { stage.counts.count < most_lists }
    ensures { next_or_over stage result ≡ list_ran stage (ran_code ran) tally head.now }
{
    ran?;
    let counts = Counts {
        count: stage.counts.count + 1,
        tally,
        ..stage.counts
    };
    Ok(head_read(Stage { counts, ..stage }, head))
}

// Goes on by a list of n words and the bytes before the next list: the list is run, and what it counts is added. One word a domain
// is lent for the holders, as far as there are. The caller must have space for the list and its table, and have counted fewer lists
// than there may be.
#[tactic(auto, unfolding(crate::specs::Step::list_read))]
pub fn list_read(
    stage: Stage,
    n: u32,
    bytes: &[u8],
    table: &mut [u32],
    list: &mut [u32],
    answers: &mut [u32],
    holders: &mut [u32],
) -> Result<Stage, ReadRefusal>
    requires { (stage.counts.words ≤ length table.old) × (n ≤ length list.old) × (stage.counts.count < most_lists) }
    ensures { Left
        (list_read n (record {
          stage = stage;
          table = table.old;
          list = list.old;
          answers = answers.old;
          holders = holders.old;
        }) bytes.now)
        (next_or_over stage result) table.new list.new answers.new holders.new }
{
    let end = 4 * (n as usize);
    if bytes.len() < end {
        return Err(ReadRefusal::CutShort);
    }
    let listed = fill(&bytes[0..end], list);
    let table = &mut table[0..stage.counts.words];
    let lent = (domains(table) as usize).min(holders.len());
    let mut tally = stage.counts.tally;
    let ran = tally.add_list(table, &list[0..listed], answers, &mut holders[0..lent]);
    list_ran(stage, ran, tally, &bytes[end..])
}
