// Noninterference by unwinding, for any machine whose calls have callers, as definitions and theorems, and no function. What a
// machine must meet and what then holds of it is in specs/, and the proofs are in proofs/.
#![tactic(auto)]
