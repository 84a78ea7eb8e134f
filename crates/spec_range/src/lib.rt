#![tactic(auto)]

// Folds over a range of numbers and lists of a function's values: definitions in specs/, laws in proofs/. This crate has no code.
