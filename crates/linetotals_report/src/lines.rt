// Writes the lines of the endpoints, one after another (document 02 (e), end-of-shift totals).
ghost use Rattle.std.specs.Prelude.{◌*◌, ◌≤◌};
ghost use Rattle.text.specs.Write.{Writes};
ghost use Rattle.linetotals_report.specs.Report.{counts_lines};

use linetotals_text::lines::endpoint_line;
use totals_add::Tally;

// Writes the lines of the endpoints below m, lowest index first, from the buffer's front on: what was counted at each, and what
// waited there at the start and at the end. They have at most 146 bytes an endpoint.
pub fn endpoint_lines(
    m: usize,
    tally: &Tally,
    start: &[u64; 32],
    end: &[u64; 32],
    out: &mut [u8],
) -> usize
    requires { m ≤ 32 }
    ensures writes { Writes 0
        (counts_lines tally.now.sent tally.now.received tally.now.lost start.now end.now m)
        out.old result out.new }
    ensures upper_bound { result ≤ 146 * m }
{
    let mut at = 0;
    // goes by the index: five slices zipped are no plainer
    for e in 0..m {
        at = endpoint_line(
            e,
            tally.sent[e],
            tally.received[e],
            tally.lost[e],
            start[e],
            end[e],
            out,
            at,
        );
    }
    at
}
