// The repair of a table's broken words (document 02 (k)), as definitions and theorems about the machine: what becomes of each
// word, for which tables that is enough, what is reported, and that no right is ever added. It has no code: specs/ has what a
// reader must believe, proofs/ what is proved of it.
#![tactic(auto)]
