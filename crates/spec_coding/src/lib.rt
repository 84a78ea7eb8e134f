#![tactic(auto)]

// Coding a message and reading it back: definitions in specs/, laws in proofs/. This crate has no code.
