//! What edits on a core of leaves leave of the sheets and patches of a mesh.
#![tactic(auto)]

pub mod laws;
