// Who has a step to whom in an access matrix, as words, and all that have a chain to a domain by them: bit u of word v is set where
// u is one that acts and has some right on v. The matrix is n × n sets of rights, holder by holder.
ghost use Rattle.std.specs.Prelude.{◌≡◌, ◌<◌, ◌≤◌, ◌^◌, take};
ghost use Rattle.reachability.specs.Closure.{closed};
ghost use Rattle.reachability.specs.Chain.{link_words};
ghost use Rattle.influence.specs.Reported.{reaches_in};

use potential::places::cell_at;
use reachability::steps::{Steps, step_words};
use reachability::{bit, closure};
use table_layout::word;

// Returns whether a domain acts and has some right on another.
fn reaches(rights: &[u32], n: u32, actors: u32, u: u32, v: u32) -> bool
    requires { u < 32 }
    ensures { result ≡ reaches_in n actors rights.now u v }
{
    let acts = (actors >> u) % 2 == 1;
    acts & (word(rights, cell_at(n, u, v)) != 0)
}

// The steps in a matrix of n domains, of those that act.
#[derive(Drop)]
struct MatrixSteps<'a> {
    rights: &'a [u32],
    n: u32,
    actors: u32,
}

impl<'a> Steps for MatrixSteps<'a> {
    ghost has = { λ steps. reaches_in steps.n steps.actors steps.rights.now };

    // Returns whether a domain acts and has some right on another.
    fn has_step(&self, u: u32, v: u32) -> bool {
        let actors = self.actors;
        u < 32 && reaches(self.rights, self.n, actors, u, v)
    }
}

// Returns the words of all n domains, from the first place on.
fn reach_words(rights: &[u32], n: u32, actors: u32) -> [u32; 16]
    requires { n ≤ 16 }
    ensures { take n result ≡ link_words n (reaches_in n actors rights.now) }
{
    let steps = MatrixSteps { rights, n, actors };
    step_words(n, &steps)
}

// Returns the set of all that have a chain to a domain below n, that domain included.
pub fn chained(rights: &[u32], n: u32, actors: u32, domain: u32) -> u32
    requires few { n ≤ 16 }
    requires is_domain { domain < n }
    ensures { result ≡ closed (link_words n (reaches_in n actors rights.now)) (2 ^ domain) }
{
    let words = reach_words(rights, n, actors);
    closure(&words[..n as usize], bit(domain))
}
