// What a domain can't distinguish and which domains it can never reach, as definitions and theorems about the machine and about the
// words that the kernel left: two lines that run one list (document 02 (g)), and connected components by rights (document 02 (j)).
// It has no code: specs/ has what a reader must believe, proofs/ what is proved of it.
#![tactic(auto)]
