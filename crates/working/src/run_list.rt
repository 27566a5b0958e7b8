// Runs the calls of a list one after the other on a working state (document 02 (l)).
ghost use Rattle.std.specs.Prelude.{◌≡◌, List, ℕ, ◌*◌, ◌≤◌, length};
ghost use Rattle.machine.specs.Call.{split};
ghost use Rattle.working.specs.Run.{working, leaves, RepresentsTable, RepresentsSome, Left};

use crate::serve::serve;
use answers::by_value::put;
use calls::split::{second_at, width};
use rights_matrix::RightsMatrix;

// Runs the calls of a list and returns how many they were.
pub fn run_list(
    n: u32,
    m: u32,
    rows: &mut RightsMatrix,
    rings: &mut [u32],
    names: &[u32; 32],
    hints: &[u8; 1024],
    owned: &[u32; 16],
    list: &[u32],
    answers: &mut [u32],
    holders: &mut [u32],
) -> usize
    requires represents_some { RepresentsSome (working n m rows.old rings.old names.now owned.now holders.old) }
    requires list_len_bound { length list.now ≤ 4096 }
    requires list_in_bounds { 3 * length (split list.now) ≤ length answers.old }
    ensures { (t : List ℕ)
        → RepresentsTable (working n m rows.old rings.old names.now owned.now
        holders.old) t
        → Left (working n m rows.old rings.old names.now owned.now holders.old) t
        list.now answers.old
        (leaves result rows.new rings.new answers.new holders.new) }
{
    let mut calls: usize = 0;
    let mut i: usize = 0;
    // Goes on by hand: a call is one word or two, so no iterator over the list has its steps.
    while i < list.len() {
        let first = list[i];
        let second = second_at(list, i);
        // The next place is known before the call is served, so the processor can fetch the next call meanwhile.
        i += width(second);
        let words = serve(
            n, m, rows, rings, names, hints, owned, holders, first, second,
        );
        let at = 3 * calls;
        let end = at + 3;
        put(&mut answers[at..end], words);
        calls += 1;
    }
    calls
}
