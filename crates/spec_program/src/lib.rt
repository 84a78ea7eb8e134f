#![tactic(auto)]

// Definitions and laws only: the bytes of standard output, from those of standard input.
