// The totals of lists that are run one after another from one table (document 02 (e)), as definitions and theorems about the
// machine. No function: what a reader must believe is in specs/, what is proved of it in proofs/.
#![tactic(auto)]
