//! How many planes the vertices of a mesh have, and how large they are: what a start mesh has, and what edits keep.
#![tactic(auto)]

pub mod laws;
