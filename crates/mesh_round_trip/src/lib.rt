//! What is read of a mesh that was written.
#![tactic(auto)]

pub mod laws;
#[cfg(test)]
mod tests;
