// The potential rights, those that could ever come about in a table where only some domains act: n × n sets, holder by holder,
// in words lent for them. Total: accepts arbitrary words as a table, and any word as the set of those that act.
#![tactic(auto)]

mod grants;
mod matrix;
pub mod places;

ghost use Rattle.std.specs.Prelude.{◌≡◌};
ghost use Rattle.potential.specs.Reported.{PotentialReported, potential_refusal_code, potential_code};
ghost use Rattle.potential.specs.declared.PotentialRefusal.TheVariants.{BadTable};

use grants::settle;
use matrix::{fill, power};
use result_code::Coded;
use table_check::{TableRefusal, check};
use table_layout::domains;

// Why the potential rights aren't computed.
#[derive(Clone, Copy, Debug, PartialEq, Eq)]
pub enum PotentialRefusal {
    // 2 to 5: the table is refused
    BadTable(TableRefusal),
    // 6: other than n × n words are lent
    OtherSpace,
    // 32: the set has a bit at or above n
    NotDomains,
}

impl Coded for PotentialRefusal {
    ghost code_of = { potential_refusal_code };

    // Returns the code of the refusal.
    fn code(self) -> u32 {
        match self {
            PotentialRefusal::BadTable(refusal) => refusal.code(),
            PotentialRefusal::OtherSpace => 6,
            PotentialRefusal::NotDomains => 32,
        }
    }
}

impl From<TableRefusal> for PotentialRefusal {
    ghost from_gives = { λ table potential. potential ≡ BadTable table };

    fn from(refusal: TableRefusal) -> PotentialRefusal {
        PotentialRefusal::BadTable(refusal)
    }
}

// Writes the potential rights in a table, where the domains of a set act, into the lent words. A refusal alters no word.
pub fn potential_of(table: &[u32], actors: u32, rights: &mut [u32]) -> Result<(), PotentialRefusal>
    ensures { PotentialReported table.now actors rights.old (potential_code result) rights.new }
{
    check(table)?;
    let n = domains(table);
    if rights.len() != n as usize * n as usize {
        return Err(PotentialRefusal::OtherSpace);
    }
    if power(n) <= actors {
        return Err(PotentialRefusal::NotDomains);
    }
    fill(table, rights);
    settle(rights, n, actors);
    Ok(())
}
