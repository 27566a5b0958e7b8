// A queue as a ring of eight places (document 02 (l)), as definitions and theorems: which queue a ring represents, that sends and
// receives on a ring simulate those on the queue, and that the stored ring is the queue. It has no function: specs/ has what a
// reader must believe, proofs/ what is proved of it.
#![tactic(auto)]
