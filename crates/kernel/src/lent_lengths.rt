// What must be lent to a run besides its table and its list: space for the answers, and one word a domain for the holders. Else
// the entry refuses it by 6 (document 01, 'Where each number is checked'; document 02, (h)).
ghost use Rattle.std.specs.Prelude.{◌≡◌, not, ◌*◌, ◌≤◌, length, eqb, ltb};
ghost use Rattle.machine.specs.Table as machine;
ghost use Rattle.machine.specs.Call.{split};

use calls::split::count;
use table_layout::domains;

// Returns whether the space has three words a call. A list has no more calls than words, so a large enough space needs no count.
pub fn has_space(list: &[u32], size: usize) -> bool
    requires { length list.now ≤ 4096 }
    ensures { result ≡ not (ltb size (3 * length (split list.now))) }
{
    if 3 * list.len() <= size {
        return true;
    }
    let calls = count(list);
    3 * calls <= size
}

// Returns whether one word a domain is lent.
pub fn one_a_domain(table: &[u32], lent: usize) -> bool
    ensures { result ≡ eqb lent (machine.domains table.now) }
{
    let n = domains(table);
    lent == n as usize
}
