//! A mesh, cut by the cells of an octree into the sheets of its leaves.
#![tactic(auto)]

mod cutting;
mod grouping;
mod near;
mod runs;
mod vertices;

pub use cutting::MeshCut;
pub use near::tris_of;
pub use runs::of_leaf;

#[cfg(test)]
mod tests;
