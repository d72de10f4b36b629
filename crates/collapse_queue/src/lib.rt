//! The collapses that may be made next, by their costs, with stamps that tell which of them are out of date.
#![tactic(auto)]

mod candidate;
pub mod laws;
mod queue;
mod stamps;

pub use candidate::Candidate;
pub use queue::Queue;
pub use stamps::Stamps;

#[cfg(test)]
mod tests;
