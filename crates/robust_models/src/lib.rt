#![tactic(auto)]

// Theorems only: see proofs/.
