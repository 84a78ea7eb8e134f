#![tactic(auto)]

// The symbols of GF(2^p) and the field operations: definitions and laws, with no code.
