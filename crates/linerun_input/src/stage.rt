// How far the reading is. Only `started` and `stepped` make a stage, so that none is without the reads that led to it.
ghost use Rattle.std.specs.Prelude.{◌+◌, ◌≤◌, ◌≡◌, length};
ghost use Rattle.linerun_input.specs.Stage.{have_of, wanted_of, ended_of, started, stage_at, is_step, stepped};

use crate::wanted;
use reader::Got;

// How many bytes came, and how many more are wanted: none where the input ended before they came.
#[derive(Clone, Copy, Debug, PartialEq, Eq)]
pub struct Input {
    have: usize,
    wanted: Option<usize>,
}

impl Input {
    // Returns how many bytes came.
    pub fn have(self) -> usize
        ensures { result ≡ have_of self }
    {
        self.have
    }

    // Returns how many more bytes are wanted.
    pub fn wanted(self) -> usize
        ensures { result ≡ wanted_of self }
    {
        self.wanted.unwrap_or(0)
    }
}

// Returns the stage before anything is read.
#[tactic(auto, unfolding(crate::specs::Stage::started))]
pub fn started() -> Input
    ensures { result ≡ started }
{
    Input {
        have: 0,
        wanted: Some(4),
    }
}

// Returns whether a read is a step of a stage, with a buffer of so many bytes.
#[tactic(auto, unfolding(crate::specs::Stage::is_step))]
fn is_step(input: Input, got: Got, buffer: &[u8]) -> bool
    ensures { result ≡ is_step input got buffer.now }
{
    input.wanted() != 0
        && got.asked() == input.wanted()
        && input.have <= buffer.len()
        && got.came() <= buffer.len() - input.have
}

// Returns the stage where the first `have` bytes of a buffer came.
#[tactic(auto, unfolding(crate::specs::Stage::stage_at))]
fn stage_at(have: usize, ended: bool, buffer: &[u8]) -> Input
    requires { have ≤ length buffer.now }
    ensures { result ≡ stage_at have ended buffer.now }
{
    let wanted = if ended {
        None
    } else {
        Some(wanted(&buffer[..have]))
    };
    Input { have, wanted }
}

// Returns the stage after a read that stored its bytes in the buffer. It stays where the read is not the one that was wanted.
#[tactic(auto, unfolding(crate::specs::Stage::stepped, crate::specs::Stage::is_step))]
pub fn stepped(input: Input, got: Got, buffer: &[u8]) -> Input
    ensures { result ≡ stepped input got buffer.now }
{
    if !is_step(input, got, buffer) {
        return input;
    }
    let came = got.came();
    let asked = got.asked();
    stage_at(input.have + came, came < asked, buffer)
}
