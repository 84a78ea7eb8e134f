#![tactic(auto)]

// Words of n symbols over any field and any n: definitions in specs/, laws in proofs/. This crate has no code.
