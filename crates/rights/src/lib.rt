// The rights that one domain holds on another: a set by value, with a bit for each right (document 01, 'The table').
// Each method is the machine's definition of the same name; as operators of std (`|` for adds) they would lose these names.
#![tactic(auto, unfolding(machine::specs::Right::holds, machine::specs::Right::adds, machine::specs::Right::without, machine::specs::Right::has_any))]

ghost use Rattle.std.specs.Prelude.{◌≡◌};
ghost use Rattle.machine.specs.Right.{holds, adds, without, has_any};

#[derive(Clone, Copy, Debug, PartialEq, Eq)]
pub struct Rights {
    pub bits: u32,
}

impl Rights {
    pub const SEND: Rights = Rights { bits: 1 };

    pub const GRANT: Rights = Rights { bits: 2 };

    pub const REMOVE: Rights = Rights { bits: 4 };

    pub const REVOKE: Rights = Rights { bits: 8 };

    // The largest set: every right there is.
    pub const ALL: Rights = Rights { bits: 15 };

    // Returns whether every right of r is in the set.
    pub fn holds(self, r: Rights) -> bool
        ensures { result ≡ holds self.bits r.bits }
    {
        (self.bits & r.bits) == r.bits
    }

    // Returns the set with the rights of r added.
    pub fn adds(self, r: Rights) -> Rights
        ensures { result.bits ≡ adds self.bits r.bits }
    {
        Rights {
            bits: self.bits | r.bits,
        }
    }

    // Returns the set without the rights of r.
    pub fn without(self, r: Rights) -> Rights
        ensures { result.bits ≡ without self.bits r.bits }
    {
        let rest = self.bits - (self.bits & r.bits);
        Rights { bits: rest }
    }

    // Returns whether some right is in the set.
    pub fn has_any(self) -> bool
        ensures { result ≡ has_any self.bits }
    {
        self.bits != 0
    }
}
