// Writers of text and numbers into a lent buffer from the index `at` on. Each returns the index after what it wrote. Where that
// does not fit, it writes what fits and returns one past the buffer's length, from which later writers write nothing.
ghost use Rattle.std.specs.Prelude.{◌+◌, ◌≤◌, ◌<◌, ◌≡◌, length, take, drop};
ghost use Rattle.text.specs.Decimal.{decimal, labelled};
ghost use Rattle.text.specs.Write.{overwrite, Writes};

use itoa::Buffer;

// Copies the first n bytes of a text. The caller must make sure that the text has them and that they fit.
fn copy(text: &[u8], n: usize, out: &mut [u8], at: usize)
    requires there { n ≤ length text.now }
    requires fits { at + n ≤ length out.old }
    ensures { out.new ≡ overwrite at (take n text.now) out.old }
{
    out[at..at + n].copy_from_slice(&text[..n]);
}

// Writes a text, and returns the index after it.
#[inline(always)]
pub fn put(text: &[u8], out: &mut [u8], at: usize) -> usize
    ensures { Writes at text.now out.old result out.new }
{
    if out.len() < at {
        return out.len() + 1;
    }
    let room = out.len() - at;
    if room < text.len() {
        copy(text, room, out, at);
        return out.len() + 1;
    }
    copy(text, text.len(), out, at);
    at + text.len()
}

// Writes a number below 10, which has one digit, and returns the index after it.
fn put_digit(x: u64, out: &mut [u8], at: usize) -> usize
    requires { x < 10 }
    ensures { Writes at (decimal x) out.old result out.new }
{
    if out.len() <= at {
        return out.len() + 1;
    }
    out[at] = b'0' + x as u8;
    at + 1
}

// Writes a number in decimal, and returns the index after it.
#[inline(never)]
fn put_digits(x: u64, out: &mut [u8], at: usize) -> usize
    ensures { Writes at (decimal x) out.old result out.new }
{
    let mut digits = Buffer::new();
    put(digits.format(x).as_bytes(), out, at)
}

// Writes a number in decimal, and returns the index after it. Most have one digit, which needs no buffer of digits.
pub fn put_decimal(x: u64, out: &mut [u8], at: usize) -> usize
    ensures { Writes at (decimal x) out.old result out.new }
{
    if x < 10 {
        return put_digit(x, out, at);
    }
    put_digits(x, out, at)
}

// Writes a label and right after it a number in decimal, and returns the index after both. Inlined where it is called, so that a
// label of known length is copied by a few moves.
#[inline(always)]
pub fn put_labelled(label: &[u8], x: u64, out: &mut [u8], at: usize) -> usize
    ensures { Writes at (labelled label.now x) out.old result out.new }
{
    let next = put(label, out, at);
    put_decimal(x, out, next)
}
