//! Which leaves are neighbours: they share a face.
#![tactic(auto)]

mod near;
mod sets;

pub use near::near_of;
pub use sets::{join_near, set_of};

#[cfg(test)]
mod tests;
