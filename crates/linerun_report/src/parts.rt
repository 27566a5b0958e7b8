// Writes the lines that linerun prints into a lent buffer, some at a time (document 01, 'Into firmware and onto the bench').
// Line 0 is the first, and line i + 1 is that of call i. No other crate sees these functions, which have preconditions.
ghost use Rattle.std.specs.Prelude.{◌+◌, ◌-◌, ◌*◌, ◌≤◌, ◌<◌, ◌≡◌, length};
ghost use Rattle.text.specs.Write.{Writes};
ghost use Rattle.linerun_report.specs.Lines.{most_bytes, lines_from, lines_between, line_after};

use linerun_text::lines::{call_line, first_line};

// The most lines that are written at a time: a page of memory is not free, and a write isn't either.
const PART_LINES: usize = 256;

// The most bytes that they have: at most 28 in the first line and 66 in each other.
pub const PART_BYTES: usize = 16924;

// Returns the line before which the part from `line` on ends.
#[tactic(auto, unfolding(crate::specs::Lines::line_after))]
pub fn line_after(calls: usize, line: usize) -> usize
    requires { calls ≤ 4096 }
    ensures { result ≡ line_after calls line }
{
    line.saturating_add(PART_LINES).min(calls + 1)
}

// Writes the lines of the calls from `from` on and below `to`, from the index `start` on, and returns the index after them. They
// have at most 66 bytes a call.
fn call_lines(answers: &[u32], from: usize, to: usize, out: &mut [u8], start: usize) -> usize
    requires from_le_to { (from ≤ to) × (to ≤ 10000) }
    requires to_in_bounds { 3 * to ≤ length answers.now }
    requires start_in_bounds { start ≤ length out.old }
    ensures writes { Writes start (lines_from answers.now from (to - from)) out.old result out.new }
    ensures upper_bound { result ≤ start + 66 * (to - from) }
{
    let mut at = start;
    let words = &answers[3 * from..3 * to];
    for (i, answer) in (from..to).zip(words.chunks_exact(3)) {
        at = call_line(i, answer[0], answer[1], answer[2], out, at);
    }
    at
}

// Writes the lines from `line` on and before `next`, from the buffer's front on, and returns how many bytes they have.
pub fn put_lines(
    calls: usize,
    code: u32,
    answers: &[u32],
    line: usize,
    next: usize,
    out: &mut [u8],
) -> usize
    requires next_nonzero { (0 < next) × (next ≤ calls + 1) × (calls ≤ 4096) }
    requires calls_in_bounds { 3 * calls ≤ length answers.now }
    requires line_in_bounds { most_bytes (next - line) ≤ length out.old }
    ensures writes { Writes 0 (lines_between calls code answers.now line next) out.old result out.new }
    ensures upper_bound { result ≤ most_bytes (next - line) }
{
    if line == 0 {
        let first_end = first_line(calls, code, out, 0);
        return call_lines(answers, 0, next - 1, out, first_end);
    }
    if next <= line {
        return 0;
    }
    call_lines(answers, line - 1, next - 1, out, 0)
}
