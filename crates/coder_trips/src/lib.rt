// Two calls of code, read and remainder, and what one tells of the other.
#![tactic(auto)]

pub mod short;
pub mod sorting;
pub mod trips;
