// The lines that linetotals prints, as bytes (document 02 (e), end-of-shift totals).
#![tactic(auto)]

pub mod lines;
