//! What a collapse and a flip ask of a list of triangles, and what they make of it.
#![tactic(auto)]

mod effects;
pub mod laws;
mod link_condition;
mod lookups;

pub use effects::{collapsed_tris, flipped_tris, substituted};
pub use link_condition::{is_closed_by_three, link_violation};
pub use lookups::{apex, are_neighbours, has_corner, opposites};

#[cfg(test)]
mod tests;
