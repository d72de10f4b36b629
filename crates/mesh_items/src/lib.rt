//! The parts of a mesh's file, one after another, for the readers of all formats: the items, what can be wrong with
//! them, and what the indices of a face mean.
#![tactic(auto)]

mod faces;
mod faults;
mod items;
#[cfg(test)]
mod tests;

pub use faces::{name_of, triangle_of};
pub use faults::{fault_at, fault_of_lines};
pub use items::{ElementKind, Item, Items, MeshFault, MeshWhy};
