// Calls as C passes them to the writer: five words a call, here a row (document 02, (c)). The writer's two passes take each
// call from its row, as it is lent, and keep none, so that little stack is needed.
ghost use Rattle.std.specs.Prelude.{◌≡◌, ◌*◌, ◌≤◌, length};
ghost use Rattle.writer.specs.Answer.{answered};
ghost use Rattle.writer_theory.specs.Rows.{row_call, call_at, writing_rows};

use crate::{WriteRefusal, write_each};
use calls::{Call, Refusal};
use format::calls::{
    KIND_GRANT, KIND_LOOK_UP, KIND_MY_ENDPOINTS, KIND_MY_RIGHTS, KIND_RECEIVE, KIND_REMOVE,
    KIND_REVOKE, KIND_SEND,
};

// Represents a row that is no call.
const NO_CALL: Call = Call::Refused {
    caller: 0,
    refusal: Refusal::UnknownKind,
};

// Returns the call of a row. A row of no kind of call, or with a column that its kind doesn't use and that isn't 0, is no call.
#[tactic(auto, unfolding(writer_theory::specs::Rows::row_call, writer_theory::specs::Rows::of_columns, writer_theory::specs::Rows::where_zero, machine::specs::Call::kind_of))]
fn row_call(kind: u32, caller: u32, a: u32, b: u32, c: u32) -> Call
    ensures { result ≡ row_call kind caller a b c }
{
    match (kind, a, b, c) {
        (KIND_LOOK_UP, 0, 0, name) => Call::LookUp { caller, name },
        (KIND_SEND, 0, endpoint, message) => Call::Send {
            caller,
            endpoint,
            message,
        },
        (KIND_RECEIVE, 0, endpoint, 0) => Call::Receive { caller, endpoint },
        (KIND_MY_ENDPOINTS, 0, 0, 0) => Call::MyEndpoints { caller },
        (KIND_MY_RIGHTS, 0, 0, 0) => Call::MyRights { caller },
        (KIND_GRANT, target, recipient, rights) => Call::Grant {
            caller,
            target,
            recipient,
            rights,
        },
        (KIND_REMOVE, target, 0, rights) => Call::Remove {
            caller,
            target,
            rights,
        },
        (KIND_REVOKE, target, holder, rights) => Call::Revoke {
            caller,
            target,
            holder,
            rights,
        },
        _ => NO_CALL,
    }
}

// Returns the call of the row of an index. Fewer than five words are no call.
#[tactic(auto, using(crate::proofs::RowAt::too_few, crate::proofs::RowAt::cut_row))]
fn call_at(rows: &[u32], i: usize) -> Call
    requires { 5 * i ≤ length rows.now }
    ensures { result ≡ call_at rows.now (5 * i) }
{
    match &rows[5 * i..] {
        [kind, caller, a, b, c, ..] => row_call(*kind, *caller, *a, *b, *c),
        _ => NO_CALL, // fewer than five words
    }
}

// Writes the calls of the rows to the start of the list and returns how many words they are. The list's words past them are left,
// and a refusal writes no word. A bad call among all rows, also past the 4,096th, comes before too many words.
pub fn write_rows(rows: &[u32], list: &mut [u32]) -> Result<usize, WriteRefusal>
    ensures { answered result list.new ≡ writing_rows rows.now list.old }
{
    let n = rows.len().div_ceil(5);
    write_each(n, n, &|i| call_at(rows, i), list)
}
