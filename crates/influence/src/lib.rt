// Who could ever influence a domain, where only some domains act: every one that some list of their calls could make a source of it.
// Total: accepts arbitrary words as a table, any word as the set of those that act, and any index as a domain.
#![tactic(auto)]

mod chains;

ghost use Rattle.std.specs.Prelude.{◌≡◌, ◌*◌, ◌<◌, length};
ghost use Rattle.machine.specs.Check.{Accepted};
ghost use Rattle.machine.specs.Table.{domains};
ghost use Rattle.influence.specs.Reported.{InfluenceReported, influence_code, influence_set};

use chains::chained;
use components::DomainRefusal;
use potential::potential_of;
use table_check::check;
use table_layout::domains;

// Answers about a domain of an accepted table, with the lent words for the potential rights.
fn influence_by(
    table: &[u32],
    actors: u32,
    domain: u32,
    n: u32,
    rights: &mut [u32],
) -> Result<u32, DomainRefusal>
    requires accepted { Accepted table.now }
    requires domains { n ≡ domains table.now }
    requires is_domain { domain < n }
    requires size { length rights.old ≡ n * n }
    ensures { InfluenceReported table.now actors domain (influence_code result) (influence_set result) }
{
    match potential_of(table, actors, rights) {
        Ok(()) => Ok(chained(rights, n, actors, domain)),
        Err(_) => Err(DomainRefusal::NotDomains),
    }
}

// Returns all that could influence a domain in a table where the domains of a set act, a bit for each, or why it is refused.
pub fn could_influence(table: &[u32], actors: u32, domain: u32) -> Result<u32, DomainRefusal>
    ensures { InfluenceReported table.now actors domain (influence_code result) (influence_set result) }
{
    check(table)?;
    let n = domains(table);
    if n <= domain {
        return Err(DomainRefusal::NotDomains);
    }
    let mut rights = [0u32; 256];
    let count = n as usize * n as usize;
    influence_by(table, actors, domain, n, &mut rights[0..count])
}
