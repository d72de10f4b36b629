//! What the puts of a build leave in a store: a sound one, or one without an index.
#![tactic(auto)]

pub mod laws;
