// Runs what linerun read, and gives the lines that it prints, part by part: the program without its reading and writing (document
// 01, 'Into firmware and onto the bench').
#![tactic(auto)]

mod parts;

ghost use Rattle.std.specs.Prelude.{◌≤◌, min, ◌≡◌, length, take};
ghost use Rattle.machine.specs.Table.{domains};
ghost use Rattle.text.specs.Write.{overwrite};
ghost use Rattle.linerun_report.specs.Report.{answered};
ghost use Rattle.linerun_report.specs.Cursor.{refusal_code, ran_calls, ran_code, calls_of, given_of, FirstLines, ended, gives, part_of, advanced};
ghost use Rattle.linerun_report.specs.declared.Refusal.TheVariants.{Entry};

use format::calls::LONGEST_LIST;
use format::tables::{DOMAIN_PLACES, LONGEST_TABLE};
use input_words::table_input::{after_table, read_table};
use input_words::words::fill;
use kernel::run;
use linerun_input::unreadable;
use parts::{line_after, put_lines};
use result_code::{Coded, code};
use run_result::EntryRefusal;
use table_layout::domains;

// The most bytes that a part of the lines has.
pub const PART_BYTES: usize = parts::PART_BYTES;

// Why nothing runs of what was read.
#[derive(Clone, Copy, Debug, PartialEq, Eq)]
pub enum Refusal {
    Unreadable, // 7, the program's own
    Entry(EntryRefusal), // 1 to 6
}

impl Coded for Refusal {
    ghost code_of = { refusal_code };

    // Returns document 01's code for the refusal.
    fn code(self) -> u32 {
        match self {
            Refusal::Unreadable => 7,
            Refusal::Entry(refusal) => refusal.code(),
        }
    }
}

impl From<EntryRefusal> for Refusal {
    ghost from_gives = { λ entry refusal. refusal ≡ Entry entry };

    fn from(entry: EntryRefusal) -> Refusal {
        Refusal::Entry(entry)
    }
}

// A cursor over the lines that are to be printed: the run's count of calls, or why nothing ran; the next line; and how many bytes the
// part that was given last has. Only `answer` makes one, and only `next` moves it.
#[derive(Clone, Copy, Debug, PartialEq, Eq)]
pub struct Lines {
    ran: Result<usize, Refusal>,
    line: usize,
    given: usize,
}

impl Lines {
    // Returns the count of calls that ran: 0 where nothing ran.
    fn calls(self) -> usize
        ensures { result ≡ calls_of self }
    {
        self.ran.unwrap_or(0)
    }

    // Returns whether all lines were given.
    #[tactic(auto, unfolding(crate::specs::Cursor::ended))]
    pub fn ended(self) -> bool
        ensures { result ≡ ended self }
    {
        self.calls() < self.line
    }
}

// Returns how many words are lent for the holders: one for each domain, up to the sixteen that an accepted table may have.
fn holders_lent(table: &[u32]) -> usize
    ensures { result ≡ min (domains table.now) 16 }
{
    (domains(table) as usize).min(DOMAIN_PLACES)
}

// Runs what was read, and returns how many calls ran, or why nothing did. It leaves the calls' answers in the lent words.
fn run_input(bytes: &[u8], answers: &mut [u32]) -> Result<usize, Refusal>
    ensures calls { ran_calls result ≡ (answered bytes.now answers.old).calls }
    ensures code { ran_code result ≡ (answered bytes.now answers.old).code }
    ensures answers_after { answers.new ≡ (answered bytes.now answers.old).answers }
{
    if unreadable(bytes) {
        return Err(Refusal::Unreadable);
    }
    let mut table = [0u32; LONGEST_TABLE];
    let words = read_table(bytes, &mut table);
    // the longest list and one word more
    let mut list = [0u32; LONGEST_LIST + 1];
    let listed = fill(after_table(bytes), &mut list);
    // one word for each domain of an accepted table
    let mut holders = [0u32; DOMAIN_PLACES];
    let lent = holders_lent(&table[..words]);
    let calls = run(
        &mut table[..words],
        &list[..listed],
        answers,
        &mut holders[..lent],
    )?;
    Ok(calls)
}

// Runs what was read. Returns the cursor before the first line, and leaves the calls' answers in the lent words.
pub fn answer(bytes: &[u8], answers: &mut [u32]) -> Lines
    ensures value { FirstLines (answered bytes.now answers.old) result }
    ensures answers_after { answers.new ≡ (answered bytes.now answers.old).answers }
{
    Lines {
        ran: run_input(bytes, answers),
        line: 0,
        given: 0,
    }
}

// Returns whether a part is given, with these answers and so many bytes of space.
#[tactic(auto, unfolding(crate::specs::Cursor::gives))]
fn gives(lines: Lines, answers: &[u32], space: usize) -> bool
    ensures { result ≡ gives lines answers.now space }
{
    let calls = lines.calls();
    calls <= LONGEST_LIST && 3 * calls <= answers.len() && PART_BYTES <= space
}

// Writes the next part at the front of the buffer, and returns the cursor after it. Where too few words or bytes are lent it writes
// nothing, and the cursor is still at the same line, so that what isn't given never passes for given.
pub fn next(lines: Lines, answers: &[u32], out: &mut [u8]) -> Lines
    ensures value { result ≡ advanced lines answers.now (length out.old) }
    ensures out_after { out.new
        ≡ overwrite 0 (part_of lines answers.now (length out.old)) out.old }
    ensures result_in_bounds { given_of result ≤ length out.new }
{
    if !gives(lines, answers, out.len()) {
        return Lines { given: 0, ..lines };
    }
    let calls = lines.calls();
    let line = lines.line;
    let next = line_after(calls, line);
    let given = put_lines(calls, code(lines.ran), answers, line, next, out);
    Lines {
        line: next,
        given,
        ..lines
    }
}

// Returns the part that was given last, which is at the front of the buffer.
pub fn part(lines: Lines, out: &[u8]) -> &[u8]
    ensures { result.now ≡ take (given_of lines) out.now }
{
    &out[..lines.given.min(out.len())]
}
