// Tests of each kind of word of a table (document 01, 'The table'). Each is total, and its contract cites the machine's
// definition for that kind of word. Most return whether the word is valid, and are joined by `&`, which leaves no branch in
// the loops that call them. `rights_wrong` and `slot_wrong` return the bits that are wrong, for the loops that gather them.
#![tactic(auto, unfolding(machine::specs::Check::header_word_ok, machine::specs::Check::rights_word_ok, machine::specs::Check::name_word_ok, machine::specs::Check::info_word_ok, machine::specs::Check::waiting_word_ok, machine::specs::Check::lost_word_ok, crate::specs::Wrong::rights_wrong))]

pub mod endpoint;

ghost use Rattle.std.specs.Prelude.{◌≡◌, cond, ◌-◌, eqb, leb};
ghost use Rattle.machine.specs.Word.{word};
ghost use Rattle.machine.specs.Right.{all_rights};
ghost use Rattle.table_words.specs.Wrong.{rights_wrong, slot_wrong};
ghost use Rattle.machine.specs.Check.{header_word_ok, rights_word_ok, name_word_ok, info_word_ok, waiting_word_ok, lost_word_ok, slot_word_ok};

use format::KIND_UNIT;
use format::tables::{
    EMPTY_SLOT, KIND_HEADER, KIND_INFO, KIND_LOST, KIND_NAME, KIND_RIGHTS, KIND_WAITING,
    MOST_DOMAINS, MOST_ENDPOINTS, NO_RIGHT, SLOTS,
};
use rights::Rights;

// The waiting word where no message waits, in 64 bits.
const NONE_WAITING: u64 = format::tables::NONE_WAITING as u64;

// Returns whether word 0 is valid: kind 1, bits 27–16 zero, 1 to 16 domains, at most 32 endpoints.
pub fn header_word_ok(w: u32) -> bool
    ensures { result ≡ header_word_ok w }
{
    let n = w / 256 % 256;
    (w / KIND_UNIT == KIND_HEADER)
        & (w / 65536 % 4096 == 0)
        & (1 <= n)
        & (n <= MOST_DOMAINS)
        & (w % 256 <= MOST_ENDPOINTS)
}

// Returns whether a rights word is valid: kind 2, no bit set above the rights.
pub fn rights_word_ok(w: u32) -> bool
    ensures { result ≡ rights_word_ok w }
{
    (w / KIND_UNIT == KIND_RIGHTS) & (w % KIND_UNIT <= Rights::ALL.bits)
}

// Returns the bits in which a rights word differs from one that has no right. In a valid word only bits of rights differ. A
// loop gathers the bits of all rights words by `|`.
pub fn rights_wrong(w: u32) -> u32
    ensures value { result ≡ rights_wrong w }
    ensures valid { leb result all_rights ≡ rights_word_ok w }
{
    w ^ NO_RIGHT
}

// Returns whether an endpoint's name is valid: kind 3, not zero.
pub fn name_word_ok(w: u32) -> bool
    ensures { result ≡ name_word_ok w }
{
    (w / KIND_UNIT == KIND_NAME) & (w % KIND_UNIT != 0)
}

// Returns whether an endpoint's info is valid among n domains: kind 4, bits 27–16 zero, owner below n, capacity 1 to 8.
pub fn info_word_ok(n: u32, w: u32) -> bool
    ensures { result ≡ info_word_ok n w }
{
    let capacity = w % 256;
    (w / KIND_UNIT == KIND_INFO)
        & (w / 65536 % 4096 == 0)
        & (w / 256 % 256 < n)
        & (1 <= capacity)
        & (capacity <= SLOTS)
}

// Returns whether an endpoint's waiting count is valid, at a capacity: kind 5, at most the capacity.
pub fn waiting_word_ok(capacity: u32, w: u32) -> bool
    ensures { result ≡ waiting_word_ok capacity w }
{
    (w / KIND_UNIT == KIND_WAITING) & (w % KIND_UNIT <= capacity)
}

// Returns whether an endpoint's lost count is valid: kind 6.
pub fn lost_word_ok(w: u32) -> bool
    ensures { result ≡ lost_word_ok w }
{
    w / KIND_UNIT == KIND_LOST
}

// Returns the bits of a slot that must be those of an empty one: the bits of the kind where a message waits in it, else all.
fn bits_asked(waits: bool) -> u32
    ensures { result ≡ cond waits 4026531840 4294967295 }
{
    if waits { EMPTY_SLOT } else { 0xFFFF_FFFF }
}

// Returns the bits that are wrong in slot i of an endpoint with this waiting word, or 0 where the slot is valid: of kind 15,
// and empty from the waiting count on. A loop gathers the bits of all slots by `|`. The whole waiting word is compared: a
// comparison of the count with 0 is compiled differently from the seven others, and the eight then don't run side by side.
#[tactic(auto, using(crate::proofs::Wrong::slot_is, crate::proofs::Wrong::slot_right))]
pub fn slot_wrong(waiting: u32, i: u32, w: u32) -> u32
    ensures value { result ≡ slot_wrong waiting i w }
    ensures valid { eqb result 0 ≡ slot_word_ok (waiting - word 5 0) i w }
{
    let waits = NONE_WAITING + u64::from(i) < u64::from(waiting);
    let asked = bits_asked(waits);
    (w ^ EMPTY_SLOT) & asked
}
