// The holders of document 02 (h), one bitmap a domain, as definitions and theorems about the machine: what they are, that noting
// each call keeps them, and what they report of who can reach a domain. It has no code: specs/ has what a reader must believe,
// proofs/ what is proved of it.
#![tactic(auto)]
