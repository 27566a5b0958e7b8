// A table's broken words mended in place, without adding a right (document 02 (k)): a broken rights word becomes one with no
// right, and the queue of an endpoint with a broken waiting, lost or slot word is emptied. Total: accepts arbitrary words.
ghost use Rattle.std.specs.Prelude.{◌≡◌, ◌*◌, length};
ghost use Rattle.machine.specs.Table.{domains, endpoints};
ghost use Rattle.table_check.specs.Checked.{Headed};
ghost use Rattle.repair_theory.specs.Mend.{mended_rights, mended_endpoint, mended};
ghost use Rattle.repair.specs.Passes.{RightsMended, EndpointsMended};

use format::tables::{EMPTY_SLOT, ENDPOINT_WORDS, NO_RIGHT, NONE_LOST, NONE_WAITING};
use result_code::code;
use table_check::check;
use table_words::endpoint::queue_ok;
use table_words::rights_word_ok;

// Returns the rights word, or one with no right where it is broken.
fn mended_rights(word: u32) -> u32
    ensures { result ≡ mended_rights word }
{
    if rights_word_ok(word) { word } else { NO_RIGHT }
}

// Mends every rights word.
fn mend_rights(table: &mut [u32])
    requires { Headed table.old }
    ensures { RightsMended table.old table.new
        (domains table.old * domains table.old) }
{
    let header = table[0];
    let n = (header / 256 % 256) as usize;
    let count = n * n;
    for i in 0..count {
        table[1 + i] = mended_rights(table[1 + i]);
    }
}

// Mends an endpoint's twelve words: one broken word of the queue, and the whole queue is emptied.
fn mend_endpoint(q: &mut [u32])
    requires { length q.old ≡ 12 }
    ensures { q.new ≡ mended_endpoint q.old }
{
    if queue_ok(q) {
        return;
    }
    q[2] = NONE_WAITING;
    q[3] = NONE_LOST;
    q[4..].fill(EMPTY_SLOT);
}

// Mends every endpoint, each lent as a part of the table.
fn mend_endpoints(table: &mut [u32])
    requires { Headed table.old }
    ensures { EndpointsMended table.old table.new (endpoints table.old) }
{
    let header = table[0];
    let n = (header / 256 % 256) as usize;
    let m = (header % 256) as usize;
    let from = 1 + n * n;
    // Lends each endpoint by its index: of parts lent by chunks_exact_mut a proof knows no word once they are given back.
    for e in 0..m {
        let start = from + ENDPOINT_WORDS * e;
        let end = start + ENDPOINT_WORDS;
        mend_endpoint(&mut table[start..end]);
    }
}

// Mends the table. Leaves one that is sound as it is, and one whose word 0 or length is wrong.
pub fn mend(table: &mut [u32])
    ensures { table.new ≡ mended table.old }
{
    // Compares the check's code, as document 02 (k) does: by 4 and 5 what is broken can be mended.
    if code(check(table)) < 4 {
        return;
    }
    mend_rights(table);
    mend_endpoints(table);
}
