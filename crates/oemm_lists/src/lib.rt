//! Lists that contracts see as lists, sets in ascending order, and copies that can fail.
#![tactic(auto)]

mod ascending_set;
mod list;

pub use ascending_set::{AscendingSet, Numbered};
pub use list::{Bytes, Copied, List};

#[cfg(test)]
mod tests;
