// The order of turns (document 02 (m)): what is pending of each domain, handing in, turns, and what a history of both promises, as
// definitions and theorems about the machine. No function: what a reader must believe is in specs/, what is proved of it in
// proofs/. The crate `turns` implements it on words.
#![tactic(auto)]
