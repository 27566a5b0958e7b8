// The program `linetotals`: it reads a table and lists of calls from standard input, and prints the totals of the table's endpoints
// over all of them as lines on standard output (document 02 (e), end-of-shift totals). Crate reader reads, crate
// linetotals_run says how many bytes are wanted and runs them, and crate linetotals_report makes the lines. This crate passes each
// result on, and writes the lines.
#![tactic(auto)]

ghost use Rattle.std.specs.Prelude.{◌≤◌, ◌≡◌, true, length};
ghost use Rattle.std.specs.Io.KnownBytes.{Appends, Consumes};
ghost use Rattle.input_words.specs.TableInput.{longest_table};
ghost use Rattle.linetotals_report.specs.Claims.{joined, InputRan};
ghost use Rattle.linetotals_report.specs.Report.{stage_lines};

use format::answers::MOST_ANSWER_WORDS;
use format::calls::LONGEST_LIST;
use format::tables::{DOMAIN_PLACES, LONGEST_TABLE};
use linetotals_input::MOST_READ;
use linetotals_report::report;
use linetotals_run::{Stage, step};
use reader::read_wanted;
use std::io::{Read, Write};

// At most 146 bytes in the line of each of 32 endpoints and 43 in the last.
const MOST_BYTES: usize = 4715;

// Reads a reader's bytes and runs them until nothing more is wanted, and returns the last stage. Where the reader's bytes are
// known, the parts that ran are the first of them. The caller must lend space for the longest table.
fn run_input<R: Read>(reader: &mut R, table: &mut [u32]) -> Stage
    requires { longest_table ≤ length table.old }
    ensures { (ran : InputRan table.old result table.new)
        × Consumes (R.remaining reader.old) (R.remaining reader.new) (joined ran.parts) }
{
    let mut input = [0u8; MOST_READ];
    let mut list = [0u32; LONGEST_LIST];
    // three words for each call of the longest list
    let mut answers = [0u32; MOST_ANSWER_WORDS];
    // one word for each domain of an accepted table
    let mut holders = [0u32; DOMAIN_PLACES];
    let mut stage = Stage::new();
    while stage.wanted() != 0 {
        let got = read_wanted(reader, &mut input, 0, stage.wanted());
        stage = step(
            stage,
            got,
            &input,
            table,
            &mut list,
            &mut answers,
            &mut holders,
        );
    }
    stage
}

// Writes what is printed after a stage and the table that the lists left, and returns whether all could be written: then, where the
// writer's bytes are known, it is what they grew by.
fn write_sheet<W: Write>(writer: &mut W, stage: Stage, table: &[u32]) -> bool
    ensures { result ≡ true
        → Appends (W.contents writer.old) (W.contents writer.new) (stage_lines stage table.now) }
{
    let mut out = [0u8; MOST_BYTES];
    let printed = report(stage, table, &mut out);
    writer.write_all(&out[0..printed]).is_ok()
}

// Writes the lines for standard input to standard output. The exit status is 0 in any case, so lines that can't be written are
// reported on standard error.
fn main(rt: HostRuntime) {
    let mut table = [0u32; LONGEST_TABLE];
    let stage = run_input(&mut rt.stdin(), &mut table);
    if !write_sheet(&mut rt.stdout(), stage, &table) {
        let _ = rt
            .stderr()
            .write_all(b"linetotals: not all lines could be written\n");
    }
}
