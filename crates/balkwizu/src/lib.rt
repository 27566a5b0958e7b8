// The C boundary: the functions that the controller's firmware and the bench link, as the archive out/libbalkwizu.a of this crate.
// Every exported name begins with `balkwizu_`. A slice is passed as a pointer and then a length.
#![tactic(auto)]

mod layouts;
mod release;

ghost use Rattle.std.specs.Prelude.{◌≡◌, ◌/◌, ◌%◌, ◌<◌};
ghost use Rattle.machine.specs.Promise.{RunPromise};
ghost use Rattle.writer.specs.Rows.{writing_rows, outcome_of};
ghost use Rattle.holders.specs.Asked.{ReachReported};
ghost use Rattle.components.specs.Reported.{ComponentReported};
ghost use Rattle.table_check_bytes.specs.Bytes.{bytes_code};
ghost use Rattle.repair.specs.Repair.{RepairPromise};
ghost use Rattle.potential.specs.Reported.{PotentialReported};
ghost use Rattle.influence.specs.Reported.{InfluenceReported};

use result_code::code;
use writer::WriteRefusal;

// Returns one word with a code in its low 16 bits and a number in its high 16 bits.
fn one_word(code: u32, number: u32) -> u32
    requires small { code < 65536 }
    requires few { number < 65536 }
    ensures low { result % 65536 ≡ code }
    ensures high { result / 65536 ≡ number }
{
    code + 65536 * number
}

// Checks a table before the kernel runs on it. Returns document 01's code, and the first check that fails decides:
//   0  the table is accepted
//   2  under four bytes, or word 0 breaks its layout
//   3  the length isn't four times the count of words that word 0 requires
//   4  a rights word breaks its layout
//   5  an endpoint word breaks its layout, or a name repeats
// The bytes are the table's 32-bit words, each with its lowest byte first. They need no alignment.
// Total: accepts arbitrary bytes of any length, reads `length` bytes at most, writes nothing and keeps nothing. The pointer may be
// any address that is not null where the length is 0.
// C: uint32_t balkwizu_table_check(const uint8_t *bytes, size_t length)
#[unsafe(no_mangle)]
pub extern "C" fn balkwizu_table_check(bytes: &[u8]) -> u32
    ensures { result ≡ bytes_code bytes.now }
{
    code(table_check_bytes::check(bytes))
}

// Runs a list of calls on a table. Returns the entry's code, 0 to 6, in the low 16 bits, and the count of calls in the high 16
// bits.
// Where the code is not 0 the count is 0 and no word of the table, of the answers or of the holders is changed.
// Where it is 0 every call of the list was run, the table is rewritten, and each call has three answer words. Words after them are
// left as they were.
// The holders are one word a domain, and 6 is also for another count of them. Bit h of word d is then set where the domain h has
// any right on the domain d in the table as it was left, whatever the words held before.
// Total: accepts arbitrary words in slices of any length. Table, list, answers and holders may not overlap.
// C: uint32_t balkwizu_run(uint32_t *table, size_t table_len, const uint32_t *list, size_t list_len,
//                          uint32_t *answers, size_t answers_len, uint32_t *holders, size_t holders_len)
#[unsafe(no_mangle)]
pub extern "C" fn balkwizu_run(
    table: &mut [u32],
    list: &[u32],
    answers: &mut [u32],
    holders: &mut [u32],
) -> u32
    ensures { RunPromise table.old list.now answers.old holders.old (result % 65536)
        (result / 65536) answers.new table.new holders.new }
{
    let ran = kernel::run(table, list, answers, holders);
    one_word(code(ran), ran.unwrap_or(0) as u32)
}

// Returns who can reach a domain, by the holders that a run keeps: every domain with a chain of rights to it, of any length, that
// domain included. They are in the high 16 bits, bit 16 + u for the domain u.
// The code is in the low 16 bits: 0, or 32 where the words aren't 1 to 16, or one has a bit from their count on, or the domain
// isn't below their count. With 32 there are no domains.
// Total: accepts arbitrary words in a slice of any length and any value as the domain, writes nothing and keeps nothing.
// C: uint32_t balkwizu_who_reaches(const uint32_t *holders, size_t holders_len, uint32_t domain)
#[unsafe(no_mangle)]
pub extern "C" fn balkwizu_who_reaches(holders: &[u32], domain: u32) -> u32
    ensures { ReachReported holders.now domain (result % 65536) (result / 65536) }
{
    let domains = holders::who_reaches(holders, domain);
    one_word(code(domains), domains.unwrap_or(0))
}

// Returns the connected component of a domain in a table, where two domains are joined when either has a right on the other. The
// members are in the high 16 bits, bit 16 + u for the domain u.
// The code is in the low 16 bits: 0, or 2 to 5 where the table is refused, or 32 where the domain isn't below n. Where it is not 0
// there are no members.
// Total: accepts arbitrary words in a slice of any length and any value as the domain, writes nothing and keeps nothing.
// C: uint32_t balkwizu_component(const uint32_t *table, size_t table_len, uint32_t domain)
#[unsafe(no_mangle)]
pub extern "C" fn balkwizu_component(table: &[u32], domain: u32) -> u32
    ensures { ComponentReported table.now domain (result % 65536) (result / 65536) }
{
    let members = components::component_of(table, domain);
    one_word(code(members), members.unwrap_or(0))
}

// Repairs a table from a worn card, without ever adding a right. Returns the code in the low 16 bits:
//   0   the table is sound now
//   33  the header, the length, a name or an info is wrong, or a name repeats
//   34  changes is too short; twice as many words as the table has are always enough
// The count of words altered is in the high 16 bits. Where the code is not 0 the count is 0 and no word of the table or of changes
// is changed.
// A broken rights word becomes 20000000, and an endpoint with a broken waiting, lost or slot word gets an empty queue, lost 0. For
// every word altered two words are written into changes, its index from 0 and its old content, lowest index first. Stored again at
// their indices, the old contents restore the old table. Words of changes after the pairs are left as they were.
// The repaired table passes the check. A sound table is left as it was, and no word of changes is written.
// Total: accepts arbitrary words in slices of any length. Table and changes may not overlap.
// C: uint32_t balkwizu_repair(uint32_t *table, size_t table_len, uint32_t *changes, size_t changes_len)
#[unsafe(no_mangle)]
pub extern "C" fn balkwizu_repair(table: &mut [u32], changes: &mut [u32]) -> u32
    ensures { RepairPromise table.old changes.old (result % 65536) (result / 65536) table.new
        changes.new }
{
    let repaired = repair::repair(table, changes);
    one_word(code(repaired), repaired.unwrap_or(0) as u32)
}

// Writes the potential rights in a table where some domains act and the others do nothing: bit u of `actors` is set for each domain
// u that acts. Returns the first code that applies: 2 to 5 where the table is refused, 6 where other than n × n words are lent, 32
// where actors has a bit from n on, else 0.
// Where it is not 0 no word is changed. Where it is 0, word h * n + g holds the rights, 0 to 15, that the domain h has on g or
// could be given by calls of those that act: no list of their calls gives more, and one list gives them all.
// Total: accepts arbitrary words in slices of any length and any value as actors. Table and rights may not overlap.
// C: uint32_t balkwizu_potential(const uint32_t *table, size_t table_len, uint32_t actors, uint32_t *rights, size_t rights_len)
#[unsafe(no_mangle)]
pub extern "C" fn balkwizu_potential(table: &[u32], actors: u32, rights: &mut [u32]) -> u32
    ensures { PotentialReported table.now actors rights.old result rights.new }
{
    code(potential::potential_of(table, actors, rights))
}

// Returns who could ever influence a domain in a table where some domains act and the others do nothing: bit u of `actors` is set for
// each domain u that acts. They are in the high 16 bits, bit 16 + u for the domain u: the domain itself, and each that acts from which
// a chain of potential rights leads to it, through others that act. No list of their calls makes another a source of the domain, and
// one list makes all of them sources.
// The code is in the low 16 bits: 0, or 2 to 5 where the table is refused, or 32 where the domain isn't below n or actors has a bit
// from n on. Where it is not 0 there are no domains.
// Total: accepts arbitrary words in a slice of any length and any values as actors and domain, writes nothing and keeps nothing.
// C: uint32_t balkwizu_could_influence(const uint32_t *table, size_t table_len, uint32_t actors, uint32_t domain)
#[unsafe(no_mangle)]
pub extern "C" fn balkwizu_could_influence(table: &[u32], actors: u32, domain: u32) -> u32
    ensures { InfluenceReported table.now actors domain (result % 65536) (result / 65536) }
{
    let set = influence::could_influence(table, actors, domain);
    one_word(code(set), set.unwrap_or(0))
}

// Encodes a call list from five words a call: its kind, its caller, A, B, and C or, for a look up and a send, what the second word
// holds. A column that a call doesn't use is 0. No table is read.
// Returns one number. Up to 4,096 is code 0: so many words are written. 4,097 is code 31: every row can be written, but the words
// would exceed 4,096 or the list. 4,098 + k is code 30: the row of index k, counted from 0, is the first that is no call or has a
// field that exceeds its bits.
// With code 0 the words are at the front of the list, and those past them are left as they were. Else no word is written.
// Total: accepts arbitrary words in slices of any length. Fewer than five words at the end are a row that is no call. Calls and
// list may not overlap.
// C: uint64_t balkwizu_write(const uint32_t *calls, size_t calls_len, uint32_t *list, size_t list_len)
#[unsafe(no_mangle)]
pub extern "C" fn balkwizu_write(calls: &[u32], list: &mut [u32]) -> u64
    ensures { outcome_of result list.new ≡ writing_rows calls.now list.old }
{
    match writer::rows::write_rows(calls, list) {
        Ok(words) => words as u64,
        Err(WriteRefusal::TooLong) => 4097,
        Err(WriteRefusal::BadCall(index)) => 4098 + index as u64,
    }
}
