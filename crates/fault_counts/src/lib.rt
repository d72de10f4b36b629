//! Counts of faults that never fall, and what is told of an object of the outside.
#![tactic(auto)]

pub mod laws;
