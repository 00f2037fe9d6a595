#![tactic(auto)]

// Theorems only: see specs/ and proofs/.
