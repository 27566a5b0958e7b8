// The closure of a set of domains over lent words, for document 02 (h) and (j): bit u of word v says that u has a step to v. A set
// is a word too, with a bit for each member. Total: accepts arbitrary words and sets.
#![tactic(auto)]

pub mod steps;

ghost use Rattle.std.specs.Prelude.{◌≡◌, ◌%◌, ◌^◌};
ghost use Rattle.reachability.specs.Closure.{widened, closed};

// Returns the set of one domain: bit i of a word, i taken modulo 32.
#[tactic(auto, using(machine::proofs::Below::one_bit))]
pub fn bit(i: u32) -> u32
    ensures { result ≡ 2 ^ (i % 32) }
{
    1 << (i % 32)
}

// Returns the set with all that have a step to a member: one round.
fn widen(words: &[u32], set: u32) -> u32
    ensures { result ≡ widened words.now set }
{
    let mut wide = set;
    let mut members = set;
    for &word in words {
        if members % 2 == 1 {
            wide |= word;
        }
        members /= 2;
    }
    wide
}

// Returns the set with all that have a chain of steps to a member, of any length. Stops at the first round that adds nobody.
pub fn closure(words: &[u32], set: u32) -> u32
    ensures { result ≡ closed words.now set }
{
    let mut reached = set;
    for _round in 0..words.len() {
        let wider = widen(words, reached);
        if wider == reached {
            return reached;
        }
        reached = wider;
    }
    reached
}
