// The connected component of a domain (document 02 (j): its group): all that are connected with it by rights in a table, in
// either direction. Total: accepts arbitrary words as a table, and any index as a domain.
#![tactic(auto)]

mod connections;

ghost use Rattle.std.specs.Prelude.{◌≡◌};
ghost use Rattle.components.specs.Reported.{ComponentReported, domain_refusal_code, component_code, component_members};
ghost use Rattle.components.specs.declared.DomainRefusal.TheVariants.{BadTable};

use connections::members;
use result_code::Coded;
use table_check::{TableRefusal, check};
use table_layout::domains;

// Why a question about a domain of a table isn't answered.
#[derive(Clone, Copy, Debug, PartialEq, Eq)]
pub enum DomainRefusal {
    // 2 to 5: the table is refused
    BadTable(TableRefusal),
    // 32: a domain that is asked about, or one of a set of domains, isn't below n
    NotDomains,
}

impl Coded for DomainRefusal {
    ghost code_of = { domain_refusal_code };

    // Returns the code of the refusal.
    fn code(self) -> u32 {
        match self {
            DomainRefusal::BadTable(refusal) => refusal.code(),
            DomainRefusal::NotDomains => 32,
        }
    }
}

impl From<TableRefusal> for DomainRefusal {
    ghost from_gives = { λ table domain. domain ≡ BadTable table };

    fn from(refusal: TableRefusal) -> DomainRefusal {
        DomainRefusal::BadTable(refusal)
    }
}

// Returns the connected component of a domain in a table, a bit for each member, or why it is refused.
pub fn component_of(table: &[u32], domain: u32) -> Result<u32, DomainRefusal>
    ensures { ComponentReported table.now domain (component_code result) (component_members result) }
{
    check(table)?;
    let n = domains(table);
    if n <= domain {
        return Err(DomainRefusal::NotDomains);
    }
    Ok(members(table, n, domain))
}
