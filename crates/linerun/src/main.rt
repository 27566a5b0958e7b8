// The program `linerun`: it reads a table and a list of calls from standard input, and prints the calls' answers as lines on
// standard output (document 01, 'Into firmware and onto the bench'). Crate linerun_input reads, and crate linerun_report runs what
// was read and gives the lines. This crate passes the one's result to the other, and writes the lines, part by part.
#![tactic(auto)]

ghost use Rattle.std.specs.Prelude.{◌≤◌, ◌≡◌, true, length, take, IsErr, OnOk};
ghost use Rattle.std.specs.Io.KnownBytes.{Appends};
ghost use Rattle.linerun_input.specs.Stage.{have_of, wanted_of, ended_of, StageAfter};
ghost use Rattle.linerun_report.specs.Report.{answer_space, report};
ghost use Rattle.linerun_report.specs.Cursor.{calls_of, code_of, given_of, ended, Prints};

use format::answers::MOST_ANSWER_WORDS;
use linerun_input::reading::{MOST_INPUT, read_input};
use linerun_input::stage::Input;
use linerun_report::{Lines, PART_BYTES, answer, next, part};
use std::io::{self, Write};

// Runs what was read, and returns the cursor before the first line. Precondition: nothing more is wanted, and the words lent for the
// answers are as the definition has them.
fn answer_input(buffer: &[u8], input: Input, answers: &mut [u32]) -> Lines
    requires input_in_bounds { have_of input ≤ length buffer.now }
    requires stage_after { StageAfter (take (have_of input) buffer.now) input × (wanted_of input ≡ 0) }
    requires answers_value { answers.old ≡ answer_space }
    ensures { Prints (take (have_of input) buffer.now) (ended_of input) result answers.new }
{
    answer(&buffer[..input.have()], answers)
}

// Writes the part that was given last, unless one before it could not be written. Where the writer's bytes are known and all could be
// written, it is what they grew by.
fn write_part<W: Write>(
    writer: &mut W,
    lines: Lines,
    out: &[u8],
    before: io::Result<()>,
) -> io::Result<()>
    ensures unwritten { IsErr before → IsErr result }
    ensures written { OnOk result
        (Appends (W.contents writer.old) (W.contents writer.new) (take (given_of lines) out.now)) }
{
    before?;
    writer.write_all(part(lines, out))
}

// Writes the lines of the cursor, part by part until all were given, and returns the cursor after them and whether all were written.
// No part is written after one that can't be. Where the writer's bytes are known and all were written, the report of the bytes that
// were read is what they grew by. Precondition: the lines are that report, which nothing more is wanted after.
fn write_lines<W: Write>(
    writer: &mut W,
    buffer: &[u8],
    input: Input,
    first: Lines,
    answers: &[u32],
) -> (Lines, io::Result<()>)
    requires stage_after { StageAfter (take (have_of input) buffer.now) input × (wanted_of input ≡ 0) }
    requires prints { Prints (take (have_of input) buffer.now) (ended_of input) first answers.now }
    ensures given { (ended result.0 ≡ true)
        × (calls_of result.0 ≡ calls_of first)
        × (code_of result.0 ≡ code_of first) }
    ensures written { OnOk result.1
        (Appends (W.contents writer.old) (W.contents writer.new) (report (take (have_of input) buffer.now))) }
{
    let mut out = [0u8; PART_BYTES];
    let mut lines = first;
    let mut written: io::Result<()> = Ok(());
    while !lines.ended() {
        lines = next(lines, answers, &mut out);
        written = write_part(writer, lines, &out, written);
    }
    (lines, written)
}

// Reads standard input, runs it, and writes its lines to standard output. The exit status is 0 in any case, so lines that can't be
// written are reported on standard error.
fn main(rt: HostRuntime) {
    let mut buffer = [0u8; MOST_INPUT];
    let input = read_input(&mut rt.stdin(), &mut buffer);
    // three words for each call of the longest list
    let mut answers = [0u32; MOST_ANSWER_WORDS];
    let lines = answer_input(&buffer, input, &mut answers);
    let (_, written) = write_lines(&mut rt.stdout(), &buffer, input, lines, &answers);
    if written.is_err() {
        let _ = rt
            .stderr()
            .write_all(b"linerun: not all lines could be written\n");
    }
}
