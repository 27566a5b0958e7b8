// What the kernel reports of itself to a layer above it that serves calls one by one (document 02 (m)): a table's count of domains,
// the words of a call, the entry of one call by itself, the holders of a table, an answer's words, and the codes of refusals and of outcomes.
ghost use Rattle.std.specs.Prelude.{◌≡◌, length};
ghost use Rattle.machine.specs.Table as machine;
ghost use Rattle.result_code.specs.Code.{result_code};
ghost use Rattle.calls.specs.Split.{second_at, width_of};
ghost use Rattle.answers.specs.Answer.{answer_words, answers_put};
ghost use Rattle.kernel.specs.Entered.{entered_code};
ghost use Rattle.kernel.specs.Step.{step_entry_code};
ghost use Rattle.kernel.specs.Reports.{HoldersPromise};

use crate::check;
use crate::lent_lengths::one_a_domain;
use answers::Answer;
use calls::split::second_at;
use holders::fill;
use result_code::Coded;
use run_result::EntryRefusal;
use table_layout::domains;

// Returns n, the table's count of domains. Total: accepts arbitrary words as the table.
pub fn domain_count(table: &[u32]) -> u8
    ensures { result ≡ machine.domains table.now }
{
    let n = domains(table);
    n as u8
}

// Returns the second word of the call that a list begins with, if it has one.
pub fn second_of_first(list: &[u32]) -> Option<u32>
    ensures { result ≡ second_at list.now 0 }
{
    second_at(list, 0)
}

// Returns how many words a call has.
pub fn width(second: Option<u32>) -> usize
    ensures { result ≡ width_of second }
{
    calls::split::width(second)
}

// Tests the entry of one call by itself, with so many words lent for the holders.
pub fn enter_step(table: &[u32], lent: usize) -> Result<(), EntryRefusal>
    ensures { entered_code result ≡ step_entry_code table.now lent }
{
    check(table)?;
    if !one_a_domain(table, lent) {
        return Err(EntryRefusal::BadHolders);
    }
    Ok(())
}

// Computes the holders of a table where its entry doesn't refuse it, as a run of no call does.
pub fn show_holders(table: &[u32], holders: &mut [u32]) -> Result<(), EntryRefusal>
    ensures { HoldersPromise table.now holders.old (entered_code result) holders.new }
{
    enter_step(table, holders.len())?;
    fill(table, holders);
    Ok(())
}

// Stores an answer's words at the start of a space. A space of fewer than three words is left as it is.
pub fn put(space: &mut [u32], words: Answer)
    ensures { space.new ≡ answers_put space.old (answer_words words) }
{
    answers::by_value::put(space, words);
}

// Returns the code of an outcome: its refusal's, and 0 where nothing was refused.
pub fn code<T: Copy, E: Coded>(outcome: Result<T, E>) -> u32
    ensures { result ≡ result_code E.code_of outcome }
{
    result_code::code(outcome)
}

// Returns the code of a refusal.
pub fn refusal_code<E: Coded>(refusal: E) -> u32
    ensures { result ≡ E.code_of refusal }
{
    refusal.code()
}
