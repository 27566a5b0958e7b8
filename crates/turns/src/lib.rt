// Turns for calls that domains hand in one by one (document 02 (m)), a layer above the kernel that relies on its contracts alone:
// those of `kernel::check`, `kernel::step` and the module `kernel::reports`. What is pending and the place of the turn are in
// 1 + 17 n words that the caller lends (crate turns_state).
#![tactic(auto)]

mod serving;

ghost use Rattle.std.specs.Prelude.{◌≡◌};
ghost use Rattle.turns.specs.Codes.{hand_in_refusal_code, handed_in_code, turn_refusal_code, begun_code, turned_code, turned_served, calls_served};
ghost use Rattle.turns.specs.Promise.{BeginPromise, HandInPromise, TurnPromise, words, outcome};
ghost use Rattle.turns.specs.declared.HandInRefusal.TheVariants.{BadTable};
ghost use Rattle.turns.specs.declared.TurnRefusal.TheVariants.{Entry};

use kernel::check;
use kernel::reports::{domain_count, refusal_code, show_holders};
use result_code::Coded;
use run_result::EntryRefusal;
use serving::{idle, refused_or, serve};
use table_check::TableRefusal;
use turns_state::domain::{fits, is_one_call};
use turns_state::order::next_to_serve;
use turns_state::{add, clear};

// Why words that are handed in are refused.
#[derive(Clone, Copy, Debug, PartialEq, Eq)]
pub enum HandInRefusal {
    BadTable(TableRefusal), // 2 to 5
    UnknownDomain, // 35
    NotOneCall, // 36
    BadTurns, // 99, which no paper uses: the state isn't 1 + 17 n words
    NoRoom, // 37
}

impl Coded for HandInRefusal {
    ghost code_of = { hand_in_refusal_code };

    // Returns the code of the refusal.
    fn code(self) -> u32 {
        match self {
            HandInRefusal::BadTable(refusal) => refusal_code(refusal),
            HandInRefusal::UnknownDomain => 35,
            HandInRefusal::NotOneCall => 36,
            HandInRefusal::BadTurns => 99,
            HandInRefusal::NoRoom => 37,
        }
    }
}

impl From<TableRefusal> for HandInRefusal {
    ghost from_gives = { λ refused refusal. refusal ≡ BadTable refused };

    fn from(refused: TableRefusal) -> HandInRefusal {
        HandInRefusal::BadTable(refused)
    }
}

// Why a beginning or a turn is refused.
#[derive(Clone, Copy, Debug, PartialEq, Eq)]
pub enum TurnRefusal {
    Entry(EntryRefusal), // 2 to 6
    BadTurns, // 99, which no paper uses: the state isn't 1 + 17 n words
}

impl Coded for TurnRefusal {
    ghost code_of = { turn_refusal_code };

    // Returns the code of the refusal.
    fn code(self) -> u32 {
        match self {
            TurnRefusal::Entry(refusal) => refusal_code(refusal),
            TurnRefusal::BadTurns => 99,
        }
    }
}

impl From<EntryRefusal> for TurnRefusal {
    ghost from_gives = { λ refused refusal. refusal ≡ Entry refused };

    fn from(refused: EntryRefusal) -> TurnRefusal {
        TurnRefusal::Entry(refused)
    }
}

// What a turn did that isn't refused.
#[derive(Clone, Copy, Debug, PartialEq, Eq)]
pub enum Turned {
    Idle,
    Served,
}

impl Turned {
    // Returns how many calls the turn served.
    pub fn served(self) -> u32
        ensures { result ≡ calls_served self }
    {
        match self {
            Turned::Idle => 0,
            Turned::Served => 1,
        }
    }
}

// Begins: where nothing refuses, every word of the state is 0, so that nothing is pending and the first turn starts at 0, and the
// holders are what the table says. A refusal changes nothing.
pub fn begin(table: &[u32], state: &mut [u32], holders: &mut [u32]) -> Result<(), TurnRefusal>
    ensures { BeginPromise table.now state.old holders.old (begun_code result) state.new
        holders.new }
{
    if !fits(table, state.len()) {
        return Err(refused_or(table, holders.len(), TurnRefusal::BadTurns));
    }
    show_holders(table, holders)?;
    clear(state);
    Ok(())
}

// Hands in the words of one call for a domain. A refusal changes nothing.
pub fn hand_in(
    table: &[u32],
    state: &mut [u32],
    domain: u32,
    words: &[u32],
) -> Result<(), HandInRefusal>
    ensures { HandInPromise table.now state.old domain words.now (handed_in_code result)
        state.new }
{
    check(table)?;
    let n = domain_count(table);
    if n as u32 <= domain {
        return Err(HandInRefusal::UnknownDomain);
    }
    if !is_one_call(words, domain) {
        return Err(HandInRefusal::NotOneCall);
    }
    if !fits(table, state.len()) {
        return Err(HandInRefusal::BadTurns);
    }
    if !add(state, domain as u8, words) {
        return Err(HandInRefusal::NoRoom);
    }
    Ok(())
}

// Serves the oldest call of the domain that is next, or none where nothing is pending. A call that is served is answered in the
// first three words of the answer space. A turn that is refused changes nothing.
pub fn turn(
    table: &mut [u32],
    state: &mut [u32],
    holders: &mut [u32],
    answer: &mut [u32],
) -> Result<Turned, TurnRefusal>
    ensures { TurnPromise (words table.old state.old holders.old answer.old)
        (outcome (turned_code result) (turned_served result)
        (words table.new state.new holders.new answer.new)) }
{
    if !fits(table, state.len()) {
        return Err(refused_or(table, holders.len(), TurnRefusal::BadTurns));
    }
    let Some(next) = next_to_serve(table, state) else {
        return idle(table, holders.len());
    };
    if answer.len() < 3 {
        let refusal = TurnRefusal::Entry(EntryRefusal::SpaceTooSmall);
        return Err(refused_or(table, holders.len(), refusal));
    }
    serve(table, state, holders, answer, next)
}
