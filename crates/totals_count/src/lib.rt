// Counts over a list and a table, whatever their words (document 02 (e)): what calls were done at each endpoint, and what waits
// there.
#![tactic(auto)]

pub mod count_calls;
pub mod waiting;
