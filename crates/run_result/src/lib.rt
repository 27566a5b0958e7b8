// The result of running a list, with document 01's codes for it ('Where each number is checked'): Ok has the count of calls that
// ran, Err why the list doesn't run.
#![tactic(auto)]

ghost use Rattle.std.specs.Prelude.{◌≡◌};
ghost use Rattle.run_result.specs.Entry.{entry_refusal_code};
ghost use Rattle.run_result.specs.declared.EntryRefusal.TheVariants.{BadTable};

use result_code::Coded;
use table_check::TableRefusal;

// Why a list doesn't run.
#[derive(Clone, Copy, Debug, PartialEq, Eq)]
pub enum EntryRefusal {
    ListTooLong, // 1
    BadTable(TableRefusal), // 2 to 5
    SpaceTooSmall, // 6
    BadHolders, // 6 too: other than one word a domain is lent for the holders
}

impl Coded for EntryRefusal {
    ghost code_of = { entry_refusal_code };

    // Returns document 01's code for the refusal.
    fn code(self) -> u32 {
        match self {
            EntryRefusal::ListTooLong => 1,
            EntryRefusal::BadTable(refusal) => refusal.code(),
            EntryRefusal::SpaceTooSmall => 6,
            EntryRefusal::BadHolders => 6,
        }
    }
}

impl From<TableRefusal> for EntryRefusal {
    ghost from_gives = { λ refusal entry. entry ≡ BadTable refusal };

    fn from(refusal: TableRefusal) -> EntryRefusal {
        EntryRefusal::BadTable(refusal)
    }
}
