// Writes the lines that linetotals prints, that of an endpoint and the last, into a lent buffer from the index `at` on, and returns
// the index after them (document 02 (e), end-of-shift totals).
ghost use Rattle.text.specs.Write.{Writes};
ghost use Rattle.linetotals_text.specs.Lines.{endpoint_line, last_line};

use text::write::{put, put_labelled};

// Writes the line of endpoint e: its totals, and how many messages waited there at the start and at the end.
pub fn endpoint_line(
    e: usize,
    sent: u64,
    received: u64,
    lost: u64,
    start: u64,
    end: u64,
    out: &mut [u8],
    at: usize,
) -> usize
    ensures { Writes at (endpoint_line e sent received lost start end) out.old result out.new }
{
    let endpoint_end = put_labelled(b"endpoint ", e as u64, out, at);
    let sent_end = put_labelled(b" sent ", sent, out, endpoint_end);
    let received_end = put_labelled(b" received ", received, out, sent_end);
    let lost_end = put_labelled(b" lost ", lost, out, received_end);
    let start_end = put_labelled(b" start ", start, out, lost_end);
    let end_end = put_labelled(b" end ", end, out, start_end);
    put(b"\n", out, end_end)
}

// Writes the last line: the count of lists that ran, and the code.
pub fn last_line(lists: usize, code: u32, out: &mut [u8], at: usize) -> usize
    ensures { Writes at (last_line lists code) out.old result out.new }
{
    let lists_end = put_labelled(b"lists ", lists as u64, out, at);
    let code_end = put_labelled(b" code ", u64::from(code), out, lists_end);
    put(b"\n", out, code_end)
}
