//! The free vertices of a patch: those that an edit may change.
#![tactic(auto)]

mod free;

pub use free::{FreeSet, free_of};

#[cfg(test)]
mod tests;
