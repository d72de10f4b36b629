//! Which sheets a leaf can have, and which patches a core: those of each mesh that tasks lead to, and those that sheets
//! make which don't clash.
#![tactic(auto)]

pub mod laws;
