#![tactic(auto)]

// Every operation for all inputs: its refusals, what it answers and writes, the result over C, and what holds of two calls. Definitions, with no code.
