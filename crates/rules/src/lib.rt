// The conditions of the places 12 and 16 to 23 of a call (document 01, 'Where each number is checked'; document 02, (b), (f) and
// (i)), by plain values and without a table: those of the indices and rights that a call names (range), and those of what was read
// for it (access). Each is here once, for code that holds a table in any layout.
#![tactic(auto)]

pub mod access;
pub mod range;

// The decision on a call that nothing refuses: its row with the values that it needs.
#[derive(Clone, Copy, Debug, PartialEq, Eq)]
pub enum Decision {
    Sends {
        endpoint: u32,
        message: u32,
    },
    Receives {
        endpoint: u32,
    },
    Grants {
        target: u32,
        recipient: u32,
        rights: u32,
    },
    Removes {
        target: u32,
        caller: u32,
        rights: u32,
    },
    Revokes {
        target: u32,
        holder: u32,
        rights: u32,
    },
}
