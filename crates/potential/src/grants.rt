// The closure of an access matrix under grants by the domains that act: rounds in which each gives all that it can, until one
// adds nothing.
ghost use Rattle.std.specs.Prelude.{◌≡◌, ◌*◌, ◌<◌, ◌≤◌, length};
ghost use Rattle.potential_theory.specs.Closure.{Proper, steps_below, granted_on, granted_to, round, settled, enough};

use crate::matrix::sum;
use crate::places::cell_at;
use rights::Rights;

// Gives the recipient the giver's rights on a target, if GRANT is among them.
fn grant_on(rights: &mut [u32], n: u32, giver: u32, recipient: u32, target: u32)
    requires size { length rights.old ≡ n * n }
    requires giver { giver < n }
    requires recipient { recipient < n }
    requires target { target < n }
    ensures { rights.new ≡ granted_on n giver recipient target rights.old }
{
    let from = cell_at(n, giver, target);
    let own = Rights { bits: rights[from] };
    if own.holds(Rights::GRANT) {
        let to = cell_at(n, recipient, target);
        let had = Rights { bits: rights[to] };
        let has = had.adds(own);
        rights[to] = has.bits;
    }
}

// Gives the recipient all that the giver can give, on every target.
fn grant_all(rights: &mut [u32], n: u32, giver: u32, recipient: u32)
    requires size { length rights.old ≡ n * n }
    requires giver { giver < n }
    requires recipient { recipient < n }
    ensures { rights.new ≡ steps_below n (granted_on n giver recipient) rights.old }
{
    for target in 0..n {
        grant_on(rights, n, giver, recipient, target);
    }
}

// Gives all that the giver can give to every domain that it has some right on.
fn grant_each(rights: &mut [u32], n: u32, giver: u32)
    requires size { length rights.old ≡ n * n }
    requires giver { giver < n }
    ensures { rights.new ≡ steps_below n (granted_to n giver) rights.old }
{
    for recipient in 0..n {
        let held = Rights {
            bits: rights[cell_at(n, giver, recipient)],
        };
        if held.has_any() {
            grant_all(rights, n, giver, recipient);
        }
    }
}

// Makes one round: each domain that acts gives all that it can.
fn grant_round(rights: &mut [u32], n: u32, actors: u32)
    requires size { length rights.old ≡ n * n }
    requires few { n ≤ 16 }
    ensures { rights.new ≡ round n actors rights.old }
{
    for giver in 0..n {
        if (actors >> giver) % 2 == 1 {
            grant_each(rights, n, giver);
        }
    }
}

// Makes rounds until one adds nothing. The sum of the sets rises with every right that is added, so an equal sum ends it.
pub fn settle(rights: &mut [u32], n: u32, actors: u32)
    requires proper { Proper n rights.old }
    requires few { n ≤ 16 }
    ensures { rights.new ≡ settled (enough n) n actors rights.old }
{
    let mut last = sum(rights);
    loop {
        grant_round(rights, n, actors);
        let next = sum(rights);
        if next == last {
            return;
        }
        last = next;
    }
}
