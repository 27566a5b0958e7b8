// The code of a refusal, and that of a result: 0 where nothing was refused (document 01, 'Where each number is checked').
#![tactic(auto)]

ghost use Rattle.std.specs.Prelude.{◌≡◌, ℕ};
ghost use Rattle.result_code.specs.Code.{result_code};

// A refusal that has a code.
pub trait Coded {
    ghost code_of: { Self → ℕ };

    // Returns the code of the refusal.
    fn code(self) -> u32
        ensures { result ≡ code_of self };
}

// Returns the code of an outcome: its refusal's, and 0 where nothing was refused.
pub fn code<T: Copy, E: Coded>(outcome: Result<T, E>) -> u32
    ensures { result ≡ result_code E.code_of outcome }
{
    match outcome {
        Ok(_) => 0,
        Err(refusal) => refusal.code(),
    }
}
