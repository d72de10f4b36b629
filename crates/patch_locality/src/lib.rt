//! What a task answers and leaves depends on the patch of its core alone.
#![tactic(auto)]

pub mod laws;
