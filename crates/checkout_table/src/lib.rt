//! Which lane holds which leaves.
#![tactic(auto)]

mod table;

pub use table::{Busy, Table};

#[cfg(test)]
mod tests;
