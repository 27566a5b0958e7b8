// The holders (document 02 (h)): one bitmap a domain beside a table, in which bit h is set where domain h has a right on that
// domain. They are computed from a table, kept by noting each change of rights, and asked for all that have a chain of rights to
// a domain. Total: accepts arbitrary words as a table and as holders.
#![tactic(auto)]

mod asking;
mod bits;
mod rows;

ghost use Rattle.std.specs.Prelude.{◌≡◌};
ghost use Rattle.holders_theory.specs.Noted.{noted, filled};
ghost use Rattle.holders_theory.specs.Asked.{ReachReported};
ghost use Rattle.holders.specs.Asked.{ask_refusal_code, asked_code, asked_set};

use asking::askable;
use bits::with_bit;
use reachability::{bit, closure};
use result_code::Coded;
use rows::{fill_rows, fillable};
use table_layout::domains;

// Computes the holders of a table afresh. Leaves the words as they are where the table has more than 16 domains or lacks rights
// words, or where other than one word a domain is lent.
pub fn fill(table: &[u32], holders: &mut [u32])
    ensures { holders.new ≡ filled table.now holders.old }
{
    let n = domains(table);
    if fillable(n, table.len(), holders.len()) {
        fill_rows(table, n, holders);
    }
}

// Notes that a holder's rights on a target have become these. Leaves the words as they are where they have no such bit.
pub fn note(holders: &mut [u32], holder: u32, target: u32, rights: u32)
    ensures { holders.new ≡ noted holders.old holder target rights }
{
    if 31 < holder {
        return;
    }
    let at = target as usize;
    if at < holders.len() {
        holders[at] = with_bit(holders[at], holder, rights != 0);
    }
}

// Why words can't be asked about a domain.
#[derive(Clone, Copy, Debug, PartialEq, Eq)]
pub enum AskRefusal {
    // 32: the words aren't 1 to 16, or one has a bit at or above their count, or the domain isn't below it
    NotAskable,
}

impl Coded for AskRefusal {
    ghost code_of = { ask_refusal_code };

    fn code(self) -> u32 {
        match self {
            AskRefusal::NotAskable => 32,
        }
    }
}

// Returns every domain with a chain of rights to a given one in the lent words, a bit for each and the domain itself among them.
pub fn who_reaches(words: &[u32], domain: u32) -> Result<u32, AskRefusal>
    ensures { ReachReported words.now domain (asked_code result) (asked_set result) }
{
    if !askable(words, domain) {
        return Err(AskRefusal::NotAskable);
    }
    Ok(closure(words, bit(domain)))
}
