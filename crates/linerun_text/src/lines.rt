// Writes the lines that linerun prints into a lent buffer from the index `at` on, and returns the index after them
// (document 01, 'Into firmware and onto the bench').
ghost use Rattle.text.specs.Write.{Writes};
ghost use Rattle.linerun_text.specs.Lines.{first_line, call_line};

use format::KIND_UNIT;
use format::answers::CODE;
use format::calls::CALLER_UNIT;
use text::write::{put, put_labelled};

// Writes the first line: the count of calls and the entry's code.
pub fn first_line(calls: usize, code: u32, out: &mut [u8], at: usize) -> usize
    ensures { Writes at (first_line calls code) out.old result out.new }
{
    let calls_end = put_labelled(b"calls ", calls as u64, out, at);
    let code_end = put_labelled(b" code ", u64::from(code), out, calls_end);
    put(b"\n", out, code_end)
}

// Writes the line of call i, whose answer is the words w, x and y: caller, kind and code from w, and x and y as they are.
pub fn call_line(i: usize, w: u32, x: u32, y: u32, out: &mut [u8], at: usize) -> usize
    ensures { Writes at (call_line i w x y) out.old result out.new }
{
    let caller = w / CALLER_UNIT % 64;
    let kind = w / KIND_UNIT;
    let code = w % CODE;
    let call_end = put_labelled(b"call ", i as u64, out, at);
    let caller_end = put_labelled(b" caller ", u64::from(caller), out, call_end);
    let kind_end = put_labelled(b" kind ", u64::from(kind), out, caller_end);
    let code_end = put_labelled(b" code ", u64::from(code), out, kind_end);
    let first_end = put_labelled(b" data ", u64::from(x), out, code_end);
    let second_end = put_labelled(b" ", u64::from(y), out, first_end);
    put(b"\n", out, second_end)
}
