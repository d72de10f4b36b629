//! Laws of edits: what a verdict and an edit depend on, and what they change.
#![tactic(auto)]

pub mod laws;
