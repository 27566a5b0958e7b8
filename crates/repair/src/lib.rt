// The repair of a table from a worn card (document 02 (k)). The table is mended in a copy. Where the check accepts the copy and
// the lent list has room for what is altered, the words that differ are written into the table, and two words for each into the
// list: its place and its old content, from which the old table can be restored. A refusal alters nothing.
#![tactic(auto)]

pub mod mend;

ghost use Rattle.std.specs.Prelude.{◌≡◌, ◌++◌, ◌≤◌, length, drop};
ghost use Rattle.repair_theory.specs.Mend.{mended, mendable};
ghost use Rattle.repair_theory.specs.Changes.{differing, changes};
ghost use Rattle.repair_theory.specs.Repair.{RepairPromise};
ghost use Rattle.repair.specs.Answer.{repair_refusal_code, repaired_code, repaired_count};

use crate::mend::mend;
use format::tables::LONGEST_TABLE;
use result_code::Coded;
use table_check::check;

// Why a table isn't repaired.
#[derive(Clone, Copy, Debug, PartialEq, Eq)]
pub enum RepairRefusal {
    // 33: the header, the length, a name or an info is wrong, or a name repeats
    BadFrame,
    // 34: the lent list is too short
    ListTooShort,
}

impl Coded for RepairRefusal {
    ghost code_of = { repair_refusal_code };

    // Returns document 02's code for the refusal.
    fn code(self) -> u32 {
        match self {
            RepairRefusal::BadFrame => 33,
            RepairRefusal::ListTooShort => 34,
        }
    }
}

// Mends the table in a copy, and returns whether the check accepts the copy.
fn mend_copy(table: &[u32], copy: &mut [u32]) -> bool
    requires { length copy.old ≡ length table.now }
    ensures value { result ≡ mendable table.now }
    ensures copy_after { copy.new ≡ mended table.now }
{
    copy.copy_from_slice(table);
    mend(copy);
    check(copy).is_ok()
}

// Returns how many words differ: the first pass, which writes nothing.
fn count_differing(old: &[u32], new: &[u32]) -> usize
    requires { length new.now ≡ length old.now }
    ensures { result ≡ length (differing old.now new.now) }
{
    let mut count: usize = 0;
    // Goes by the index, without a branch; filter and count have one for each word.
    for i in 0..old.len() {
        count += usize::from(old[i] != new[i]);
    }
    count
}

// Makes the second pass, lowest place first: where a word differs, writes the pair into the list and the new word into the table.
fn replace(table: &mut [u32], new: &[u32], list: &mut [u32])
    requires same_size { length new.now ≡ length table.old }
    requires few { length table.old ≤ 641 }
    requires room { length (changes table.old new.now) ≤ length list.old }
    ensures table_after { table.new ≡ new.now }
    ensures list_after { list.new
        ≡ changes table.old new.now
        ++ drop (length (changes table.old new.now)) list.old }
{
    let mut at: usize = 0;
    for (i, word) in table.iter_mut().enumerate() {
        let old = *word;
        if old != new[i] {
            let place = i as u32;
            list[at] = place;
            list[at + 1] = old;
            *word = new[i];
            at += 2;
        }
    }
}

// Repairs the table, with as many words lent for the copy as the table has.
fn repair_by_copy(
    table: &mut [u32],
    copy: &mut [u32],
    list: &mut [u32],
) -> Result<usize, RepairRefusal>
    requires same_size { length copy.old ≡ length table.old }
    requires few { length table.old ≤ 641 }
    ensures { RepairPromise table.old list.old (repaired_code result) (repaired_count result) table.new
        list.new }
{
    if !mend_copy(table, copy) {
        return Err(RepairRefusal::BadFrame);
    }
    let count = count_differing(table, copy);
    if list.len() < 2 * count {
        return Err(RepairRefusal::ListTooShort);
    }
    replace(table, copy, list);
    Ok(count)
}

// Repairs the table and lists what was altered. More words than the largest table has are no table, and are refused.
pub fn repair(table: &mut [u32], list: &mut [u32]) -> Result<usize, RepairRefusal>
    ensures { RepairPromise table.old list.old (repaired_code result) (repaired_count result) table.new
        list.new }
{
    let size = table.len();
    if LONGEST_TABLE < size {
        return Err(RepairRefusal::BadFrame);
    }
    let mut copy = [0u32; LONGEST_TABLE];
    repair_by_copy(table, &mut copy[..size], list)
}
