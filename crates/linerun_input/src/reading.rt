// Reads all that linerun wants of its input: the length word, the table, the list. Each step asks for what the stage wants and for no
// byte more, so that the program never waits for one that can't matter.
ghost use Rattle.std.specs.Prelude.{take};
ghost use Rattle.std.specs.Io.KnownBytes.{Consumes};
ghost use Rattle.linerun_input.specs.Stage.{have_of, ReadInto};

use crate::stage::{Input, started, stepped};
use format::calls::LONGEST_LIST;
use format::tables::LONGEST_TABLE;
use reader::read_wanted;
use std::io::Read;

// The most bytes that are read: the length word, 641 table words and 4,097 list words.
pub const MOST_INPUT: usize = 4 * (1 + LONGEST_TABLE + LONGEST_LIST + 1);

// Reads until nothing more is wanted, and returns the stage that the reading ends at. Where the reader's bytes are known, the bytes of
// this stage are the first of them. Into a buffer of another length than MOST_INPUT it reads nothing, and returns the first stage,
// which wants more.
pub fn read_input<R: Read>(reader: &mut R, buffer: &mut [u8]) -> Input
    ensures read { ReadInto buffer.old result buffer.new }
    ensures next { Consumes (R.remaining reader.old) (R.remaining reader.new) (take (have_of result) buffer.new) }
{
    let mut input = started();
    if buffer.len() != MOST_INPUT {
        return input;
    }
    while input.wanted() != 0 {
        let have = input.have();
        let want = input.wanted();
        let got = read_wanted(reader, buffer, have, want);
        input = stepped(input, got, buffer);
    }
    input
}
