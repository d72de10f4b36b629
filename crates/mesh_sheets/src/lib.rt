//! How a mesh stands in the sheets of leaves, and what a core of leaves sees of it: definitions, and what follows from
//! them.
#![tactic(auto)]

pub mod laws;
