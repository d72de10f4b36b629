//! A flip that is done keeps the manifold.
#![tactic(auto)]

pub mod laws;
