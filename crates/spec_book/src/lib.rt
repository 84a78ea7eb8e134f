#![tactic(auto)]

// The codebook's byte layout and the conditions under which it is accepted: definitions in specs/, laws in proofs/. This crate has no code.
