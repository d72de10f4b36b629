//! Lemmas on the verdicts of edits, on the least collapse and on simplification, and their laws.
#![tactic(auto)]

pub mod laws;
