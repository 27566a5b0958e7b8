// Sets of domains as words, with a bit for each member (document 02 (h)).
ghost use Rattle.std.specs.Prelude.{◌≡◌, cond, ◌<◌};
ghost use Rattle.machine.specs.Word.{payload};
ghost use Rattle.machine.specs.Right.{has_any};
ghost use Rattle.holders_theory.specs.Noted.{with_bit};

use format::KIND_UNIT;
use reachability::bit;

// Returns the word with bit i set or cleared.
pub fn with_bit(word: u32, i: u32, set: bool) -> u32
    requires { i < 32 }
    ensures { result ≡ with_bit word i set }
{
    let one = bit(i);
    if set { word | one } else { word - (word & one) }
}

// Returns the holder's own set where a rights word has any right in it, else the empty set.
pub fn held(rights: u32, holder: u32) -> u32
    ensures { result ≡ cond (has_any (payload rights)) holder 0 }
{
    if rights % KIND_UNIT != 0 { holder } else { 0 }
}
