// The stages of linetotals' input, which is run as it is read (document 02 (e), end-of-shift totals). A stage says how many bytes
// are wanted next, and a step goes on from a stage by a reading of so many. One list is held at a time, however many come.
#![tactic(auto)]

mod list_phase;
mod table_phase;

ghost use Rattle.std.specs.Prelude.{◌+◌, ◌-◌, ◌*◌, ◌≡◌};
ghost use Rattle.linetotals_input.specs.Input.{most_lists, head_wanted};
ghost use Rattle.linetotals_run.specs.Stage.{wanted_at, first_stage, in_phase, counts_at, code_at, read_refusal_code};
ghost use Rattle.linetotals_run.specs.declared.ReadRefusal.TheVariants.{BadTable, BadList};
ghost use Rattle.reader.specs.Read.{asked_of, came_of};
ghost use Rattle.linetotals_run.specs.Step.{next_or_over, phase_fits, takes, step_on, Left};

use linetotals_input::head_wanted;
use list_phase::{head_read, list_read};
use reader::Got;
use result_code::Coded;
use run_result::EntryRefusal;
use table_check::TableRefusal;
use table_phase::{length_read, table_read};
use totals_add::Tally;

// The most lists that there may be.
const MOST_LISTS: usize = 65536;

// Why a reading ends before its input does.
#[derive(Clone, Copy, Debug, PartialEq, Eq)]
pub enum ReadRefusal {
    CutShort, // 7: the table or a list is cut short, or the table is above the longest
    BadTable(TableRefusal), // 2 to 5
    BadList(EntryRefusal), // 1 to 6
}

impl Coded for ReadRefusal {
    ghost code_of = { read_refusal_code };

    fn code(self) -> u32 {
        match self {
            ReadRefusal::CutShort => 7,
            ReadRefusal::BadTable(refusal) => refusal.code(),
            ReadRefusal::BadList(refusal) => refusal.code(),
        }
    }
}

impl From<TableRefusal> for ReadRefusal {
    ghost from_gives = { λ refusal read. read ≡ BadTable refusal };

    fn from(table_refusal: TableRefusal) -> ReadRefusal {
        ReadRefusal::BadTable(table_refusal)
    }
}

impl From<EntryRefusal> for ReadRefusal {
    ghost from_gives = { λ refusal read. read ≡ BadList refusal };

    fn from(entry_refusal: EntryRefusal) -> ReadRefusal {
        ReadRefusal::BadList(entry_refusal)
    }
}

// What the next bytes are: the table's length word; its words, so many; the first list's length word; a list's words, so many, and
// the bytes before the next list. Or nothing more is wanted, and a code ended the reading.
// Keeps the code and not the refusal: the machine's definitions, which those of the step cite, give a refused list a code alone.
#[derive(Clone, Copy, Debug, PartialEq, Eq)]
pub enum Phase {
    TableLength,
    TableWords(u32),
    FirstLength,
    ListWords(u32),
    Over(u32),
}

// What was counted so far: of an accepted table its words and its endpoints; how many lists ran; how many messages waited at each
// endpoint at the start; and the totals.
#[derive(Clone, Copy)]
pub struct Counts {
    pub words: usize,
    pub endpoints: usize,
    pub count: usize,
    pub start: [u64; 32],
    pub tally: Tally,
}

// A stage: what the next bytes are, and what was counted so far.
#[derive(Clone, Copy)]
pub struct Stage {
    phase: Phase,
    counts: Counts,
}

impl Stage {
    // Returns the first stage: nothing was read.
    pub fn new() -> Stage
        ensures { result ≡ first_stage }
    {
        let counts = Counts {
            words: 0,
            endpoints: 0,
            count: 0,
            start: [0; 32],
            tally: Tally::new(),
        };
        Stage {
            phase: Phase::TableLength,
            counts,
        }
    }

    // Returns how many bytes are wanted next: 0 where the reading is over.
    pub fn wanted(self) -> usize
        ensures { result ≡ wanted_at self }
    {
        match self.phase {
            Phase::TableLength | Phase::FirstLength => 4,
            Phase::TableWords(n) => 4 * (n as usize),
            Phase::ListWords(n) => list_wanted(n, self.counts.count),
            Phase::Over(_) => 0,
        }
    }

    // Returns what was counted so far.
    pub fn counts(self) -> Counts
        ensures { result ≡ counts_at self }
    {
        self.counts
    }

    // Returns the code that ended the reading, or 7 where it isn't over.
    pub fn code(self) -> u32
        ensures { result ≡ code_at self }
    {
        match self.phase {
            Phase::Over(code) => code,
            _ => 7,
        }
    }

    // Returns the stage with another phase.
    fn at(self, phase: Phase) -> Stage
        ensures { result ≡ in_phase phase self }
    {
        Stage { phase, ..self }
    }

    // Returns the next stage, or this one where a refusal ends the reading with its code.
    fn next_or_over(self, next: Result<Stage, ReadRefusal>) -> Stage
        ensures { result ≡ next_or_over self next }
    {
        match next {
            Ok(stage) => stage,
            Err(refusal) => self.at(Phase::Over(refusal.code())),
        }
    }
}

// Returns how many bytes a list of n words and the bytes before the next list have, where `count` lists ran before it.
#[tactic(auto, using(linetotals_input::proofs::ListLaws::head_few))]
fn list_wanted(n: u32, count: usize) -> usize
    ensures { result ≡ 4 * n + head_wanted (most_lists - (count + 1)) }
{
    let left = MOST_LISTS.saturating_sub(count).saturating_sub(1);
    4 * (n as usize) + head_wanted(left)
}

// Returns whether there is space for the words that follow, and one list more may come where a list does.
fn fits(stage: Stage, table: &[u32], list: &[u32]) -> bool
    ensures { result ≡ phase_fits stage.phase stage.counts.words stage.counts.count table.now list.now }
{
    match stage.phase {
        Phase::TableLength | Phase::FirstLength | Phase::Over(_) => true,
        Phase::TableWords(n) => n as usize <= table.len(),
        Phase::ListWords(n) => {
            stage.counts.words <= table.len()
                && n as usize <= list.len()
                && stage.counts.count < MOST_LISTS
        }
    }
}

// Returns whether the stage takes a reading: it wanted so many bytes, the input has those that came, and there is space.
#[tactic(auto, unfolding(crate::specs::Step::takes))]
fn takes(stage: Stage, got: Got, input: &[u8], table: &[u32], list: &[u32]) -> bool
    ensures { result ≡ takes stage (asked_of got) (came_of got) input.now table.now list.now }
{
    got.asked() == stage.wanted() && got.came() <= input.len() && fits(stage, table, list)
}

// Goes on from a stage by the bytes that were read for it, at the front of `input`: the table is checked and stored at the front of
// `table`, and each list runs from it. Returns the next stage. A reading that the stage doesn't take leaves everything as it is.
#[tactic(auto, unfolding(crate::specs::Step::takes, crate::specs::Step::step_on, crate::specs::Step::stepped))]
pub fn step(
    stage: Stage,
    got: Got,
    input: &[u8],
    table: &mut [u32],
    list: &mut [u32],
    answers: &mut [u32],
    holders: &mut [u32],
) -> Stage
    ensures { Left
        (step_on (record {
          stage = stage;
          table = table.old;
          list = list.old;
          answers = answers.old;
          holders = holders.old;
        }) (asked_of got) (came_of got) input.now)
        result table.new list.new answers.new holders.new }
{
    if !takes(stage, got, input, table, list) {
        return stage;
    }
    let bytes = &input[0..got.came()];
    match stage.phase {
        Phase::TableLength => stage.next_or_over(length_read(stage, bytes)),
        Phase::TableWords(n) => stage.next_or_over(table_read(n, bytes, table)),
        Phase::FirstLength => head_read(stage, bytes),
        Phase::ListWords(n) => {
            stage.next_or_over(list_read(stage, n, bytes, table, list, answers, holders))
        }
        Phase::Over(_) => stage,
    }
}
