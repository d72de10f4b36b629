//! The link condition of a collapse, told by the rings of its two vertices.
#![tactic(auto)]

mod link;
mod neighbours;

pub use link::{Link, verdict};

#[cfg(test)]
mod tests;
