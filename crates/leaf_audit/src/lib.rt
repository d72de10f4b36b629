//! The audit of a store, leaf by leaf.
#![tactic(auto)]

mod auditing;
pub mod laws;
mod names;
mod tally;

pub use auditing::audit;

#[cfg(test)]
mod tests;
