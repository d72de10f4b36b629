//! Edits, work, tasks and plays keep the manifold, and leave what other areas see.
#![tactic(auto)]

pub mod laws;
