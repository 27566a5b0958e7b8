// The machine of document 01 as definitions and theorems, and no function. What a reader must believe is in specs/, and what
// is proved of it is in proofs/.
#![tactic(auto)]
