// What linetotals prints after a stage of its reading, as bytes (document 02 (e), end-of-shift totals). Nothing is read here.
#![tactic(auto)]

mod lines;

ghost use Rattle.std.specs.Prelude.{◌≤◌, min, ◌≡◌, length};
ghost use Rattle.text.specs.Write.{Writes};
ghost use Rattle.linetotals_report.specs.Report.{most_bytes, stage_lines};

use format::tables::ENDPOINT_PLACES;
use lines::endpoint_lines;
use linetotals_run::Stage;
use linetotals_text::lines::last_line;
use totals_count::waiting::waiting_counts;

// Writes what is printed after a stage and the table that the lists left, from the buffer's front on, and returns how many bytes
// that is: at most 4,715. A buffer that is too short gets what fits, and the function then returns one past the buffer's length.
pub fn report(stage: Stage, table: &[u32], out: &mut [u8]) -> usize
    ensures writes { Writes 0 (stage_lines stage table.now) out.old result out.new }
    ensures upper_bound { result ≤ most_bytes }
{
    let counts = stage.counts();
    let words = counts.words.min(table.len());
    let end = waiting_counts(&table[0..words]);
    let m = counts.endpoints.min(ENDPOINT_PLACES);
    let at = endpoint_lines(m, &counts.tally, &counts.start, &end, out);
    last_line(counts.count, stage.code(), out, at)
}
