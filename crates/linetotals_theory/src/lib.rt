// What linetotals prints for what it read, as bytes: definitions and theorems, and no function (document 02 (e), end-of-shift
// totals).
#![tactic(auto)]
