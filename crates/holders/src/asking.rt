// Whether words can be asked about a domain (document 02 (h): 32).
ghost use Rattle.std.specs.Prelude.{◌≡◌, ◌<◌, ◌↔◌, IsTrue, EachIndex, slice_index};
ghost use Rattle.holders_theory.specs.Asked.{askable};

use format::tables::DOMAIN_PLACES;
use reachability::bit;

// Returns whether no word has a bit at or above that of the bound, which is the set of one.
fn bits_within(words: &[u32], bound: u32) -> bool
    ensures { IsTrue result ↔ EachIndex words.now (λ k. slice_index words.now k < bound) }
{
    words.iter().all(|&word| word < bound)
}

// Returns whether the words are 1 to 16, none has a bit at or above their count, and the domain is below it.
pub fn askable(words: &[u32], domain: u32) -> bool
    ensures { result ≡ askable words.now domain }
{
    if DOMAIN_PLACES < words.len() || words.len() <= domain as usize {
        return false;
    }
    bits_within(words, bit(words.len() as u32))
}
