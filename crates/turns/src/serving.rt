// A turn that serves nobody, and one that serves a domain (document 02 (m)).
ghost use Rattle.std.specs.Prelude.{◌≡◌};
ghost use Rattle.kernel.specs.Step.{step_entry_code};
ghost use Rattle.turns.specs.Codes.{then_code, turn_refusal_code, turned_code, turned_served};
ghost use Rattle.turns.specs.Promise.{MayServe, TurnPromise, words, outcome};

use crate::{TurnRefusal, Turned};
use kernel::reports::{enter_step, put, width};
use kernel::step;
use turns_state::{first_of_oldest, remove, second_of_oldest};

// Returns the refusal of a table or of so many words lent for the holders, or the given refusal where neither is refused.
pub fn refused_or(table: &[u32], lent: usize, next: TurnRefusal) -> TurnRefusal
    ensures { turn_refusal_code result ≡ then_code (step_entry_code table.now lent) (turn_refusal_code next) }
{
    match enter_step(table, lent) {
        Ok(()) => next,
        Err(refusal) => TurnRefusal::Entry(refusal),
    }
}

// Returns the outcome of a turn with nothing pending: the refusal of its table or of its holders, or idle.
pub fn idle(table: &[u32], lent: usize) -> Result<Turned, TurnRefusal>
    ensures code { turned_code result ≡ step_entry_code table.now lent }
    ensures none_served { turned_served result ≡ 0 }
{
    enter_step(table, lent)?;
    Ok(Turned::Idle)
}

// Serves the oldest call of a domain. Where the step is refused, nothing changes here either.
pub fn serve(
    table: &mut [u32],
    state: &mut [u32],
    holders: &mut [u32],
    answer: &mut [u32],
    domain: u8,
) -> Result<Turned, TurnRefusal>
    requires { MayServe table.old state.old answer.old domain }
    ensures { TurnPromise (words table.old state.old holders.old answer.old)
        (outcome (turned_code result) (turned_served result)
        (words table.new state.new holders.new answer.new)) }
{
    let first = first_of_oldest(state, domain);
    let second = second_of_oldest(state, domain);
    let words = step(table, first, second, holders)?;
    put(answer, words);
    let few = width(second);
    remove(state, domain, few);
    Ok(Turned::Served)
}
