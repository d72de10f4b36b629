//! When what a store has under its keys is a mesh, with the journal that led to it, and how a commit keeps it so.
#![tactic(auto)]

pub mod laws;
