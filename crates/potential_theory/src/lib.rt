// The potential rights, those that could ever come about, as definitions and theorems about the machine and about the words that
// the kernel left: the safety question of protection systems, with an answer that computes. It has no code: specs/ has what a
// reader must believe, proofs/ what is proved of it.
#![tactic(auto)]
