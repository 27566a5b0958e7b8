// Holds all closed claims together, so that each is an obligation of the check: specs/Promises is the page to read. A theorem that is
// deleted or weakened below no longer proves its field here.
#![tactic(auto)]

ghost use Rattle.promises.specs.Promises.{Promises};

// Does nothing. Its contract is that every claim holds.
pub fn hold()
    ensures { Promises }
{}
