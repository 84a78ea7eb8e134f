#![tactic(auto)]

// The worked cases of a long book, in specs/, and their proof, in proofs/. This crate has no code.
