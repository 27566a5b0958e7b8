// The working state of a run (document 02 (l)), as definitions and theorems: it has no function. The rights are in rows, the queues
// in rings. The crates working_endpoint_calls, working_rights_calls and working serve calls on them.
#![tactic(auto)]
