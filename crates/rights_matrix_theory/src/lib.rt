// The rights of up to sixteen domains as sixteen rows of sixteen small numbers (document 02 (l)), as definitions and theorems:
// loaded rows are a table's rights, what is put into rows is held, and stored rows are the table's rights words. It has no
// function: specs/ has what a reader must believe, proofs/ what is proved of it.
#![tactic(auto)]
