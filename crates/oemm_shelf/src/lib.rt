//! The sheets of a store: one leaf's, the patch of a core, and how a store is opened and written, with every cause.
#![tactic(auto)]

mod cores;
mod entries;
mod fault;
pub mod laws;
mod opening;
mod puts;
mod sheets;
mod shelf;
mod versions;

pub use fault::{FoundFault, ShelfFault};
pub use patch_assembly::Clash;
pub use shelf::Shelf;

#[cfg(test)]
mod tests;
