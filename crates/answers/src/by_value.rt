// Answers made of plain values, for code that has read the data in a layout of its own, and the storing of an answer's words
// (document 01, 'The calls').
ghost use Rattle.std.specs.Prelude.{◌≡◌};
ghost use Rattle.machine.specs.Machine.{Decision.refused};
ghost use Rattle.calls.specs.Number.{number_of};
ghost use Rattle.rules.specs.Range.{refused_numbers};
ghost use Rattle.answers.specs.Answer.{answer_words, answer_of, answers_put};

use crate::{Answer, head};
use calls::Refusal;
use result_code::code;
use rules::range::of_refused;

// Returns a call's answer: its data words where it is done, or its refusal's code with data words that are 0.
#[tactic(auto, using(crate::proofs::AnswerWords::answered, crate::proofs::AnswerWords::head_room, calls::proofs::Numbers::code_most))]
pub fn answer(first: u32, outcome: Result<(u32, u32), Refusal>) -> Answer
    ensures { answer_words result ≡ answer_of first outcome }
{
    let (x, y) = outcome.unwrap_or((0, 0));
    Answer {
        head: head(first) + code(outcome),
        first: x,
        second: y,
    }
}

// Returns the refusal of a call that is refused without a table: 12 may come before its own code.
pub fn refuse(n: u32, caller: u32, refusal: Refusal) -> Refusal
    ensures { refused (number_of result) ≡ refused_numbers n caller refusal (refused (number_of refusal)) }
{
    match of_refused(n, caller, refusal) {
        Ok(()) => refusal,
        Err(unknown) => unknown,
    }
}

// Stores an answer's words at the start of a space. A space of fewer than three words is left as it is.
#[tactic(auto, using(crate::proofs::Space::too_short, crate::proofs::Space::three_put))]
pub fn put(space: &mut [u32], words: Answer)
    ensures { space.new ≡ answers_put space.old (answer_words words) }
{
    if space.len() < 3 {
        return;
    }
    space[0] = words.head;
    space[1] = words.first;
    space[2] = words.second;
}
