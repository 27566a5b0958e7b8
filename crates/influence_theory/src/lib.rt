// No function of its own: this crate is definitions and theorems (specs/, proofs/) about who could ever influence whom: which
// domains could be in the source set of a domain, over any list of calls. What computes it is the crate influence.
#![tactic(auto)]
