// The words of who has a step to whom among the first domains: bit u of word v is set where u has a step to v.
ghost use Rattle.std.specs.Prelude.{◌≡◌, ℕ, Bool, ◌≤◌, min, take};
ghost use Rattle.machine.specs.Below.{bits_below};
ghost use Rattle.reachability.specs.Chain.{link_words};

use crate::bit;

// Who has a step to whom, whatever the two numbers.
pub trait Steps {
    ghost has: { Self → ℕ → ℕ → Bool };

    // Returns whether u has a step to v.
    fn has_step(&self, u: u32, v: u32) -> bool
        ensures { result ≡ has self.now u v };
}

// Returns the set of all below n that have a step to v.
fn step_word<S: Steps>(n: u32, v: u32, steps: &S) -> u32
    requires { n ≤ 16 }
    ensures { result ≡ bits_below n (λ u. S.has steps.now u v) }
{
    let mut bits = 0;
    for u in 0..n {
        if steps.has_step(u, v) {
            bits |= bit(u);
        }
    }
    bits
}

// Returns the words of the first n domains, and of no more than 16, from the first place on.
pub fn step_words<S: Steps>(n: u32, steps: &S) -> [u32; 16]
    ensures { take (min n 16) result ≡ link_words (min n 16) (S.has steps.now) }
{
    let mut words = [0; 16];
    let few = n.min(16);
    for v in 0..few {
        words[v as usize] = step_word(few, v, steps);
    }
    words
}
