#![tactic(auto)]

// Frequency matrix, update rule, rounds and decode: definitions in specs/, laws in proofs/. This crate has no code.
