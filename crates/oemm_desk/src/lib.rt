//! The desk of a store: lanes check cores out, and commit what they did on them, each commit whole or not at all.
#![tactic(auto)]

mod counting;
mod desk;
mod fault;
mod journaling;
pub mod laws;
mod taking;

pub use desk::Desk;
pub use fault::{CommitFault, Finished, TakeFault, Taken};
