// Reads what a program is given: fills a lent buffer from a reader, and reads as many bytes as are wanted. What such a read gave no
// other function can make, so that a stage which takes a read of as many bytes as it wants can't go on without one.
#![tactic(auto)]

ghost use Rattle.std.specs.Prelude.{◌≤◌, ◌≡◌, length, take, drop};
ghost use Rattle.std.specs.Io.KnownBytes.{Consumes};
ghost use Rattle.reader.specs.Read.{asked_of, came_of, ReadAt};

use std::io::Read;

// What one read gave: how many bytes it asked for, and how many came.
#[derive(Clone, Copy, Debug, PartialEq, Eq)]
pub struct Got {
    asked: usize,
    came: usize,
}

impl Got {
    // Returns how many bytes were asked for.
    pub fn asked(self) -> usize
        ensures { result ≡ asked_of self }
    {
        self.asked
    }

    // Returns how many bytes came.
    pub fn came(self) -> usize
        ensures { result ≡ came_of self }
    {
        self.came
    }
}

// Reads until the buffer is full, the input ends or a read fails, and returns how many bytes came. They are at the buffer's front and,
// where the reader's bytes are known, are the next of them. Into an empty buffer it reads nothing.
pub fn read_full<R: Read>(reader: &mut R, buffer: &mut [u8]) -> usize
    ensures few { result ≤ length buffer.new }
    ensures next { Consumes (R.remaining reader.old) (R.remaining reader.new) (take result buffer.new) }
{
    let mut done = 0;
    // counts by hand: std's read_exact doesn't say how many bytes came before the input's end
    while done < buffer.len() {
        match reader.read(&mut buffer[done..]) {
            Ok(0) | Err(_) => break,
            Ok(count) => done += count,
        }
    }
    done
}

// Reads `want` bytes into a buffer from the index `have` on, fewer only where the input ends, and returns how many. Where they don't
// fit it asks for none and writes nothing, so that a short buffer never passes for the end of the input. Where the reader's bytes are
// known, those that came are the next of them.
// Free: how many of the bytes that were asked for a read stores, and what it leaves after them in the place that it was lent. Which
// bytes standard input has no contract says. That fewer come only where it ends or where a read fails, and that each part of a
// program's lines is written, once and in order, to standard output is tested and not proved.
pub fn read_wanted<R: Read>(reader: &mut R, buffer: &mut [u8], have: usize, want: usize) -> Got
    ensures read { ReadAt have want buffer.old result buffer.new }
    ensures next { Consumes (R.remaining reader.old) (R.remaining reader.new) (take (came_of result) (drop have buffer.new)) }
{
    if buffer.len() < have || buffer.len() - have < want {
        return Got { asked: 0, came: 0 };
    }
    let end = have + want;
    let came = read_full(reader, &mut buffer[have..end]);
    Got { asked: want, came }
}
