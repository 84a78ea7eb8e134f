#![tactic(auto)]

// The worked cases 1 to 14 and remainders, in specs/, and their proof, in proofs/. This crate has no code.
