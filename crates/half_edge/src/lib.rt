//! Triangles as half-edges, seen as a list of triangles.
#![tactic(auto)]

mod build;
mod collapse;
mod edges;
mod edits;
mod fault;
mod flip;
mod mesh;
mod outs;
mod ring;
mod rounds;
mod surgery;

pub use fault::HalfFault;
pub use mesh::HalfMesh;
pub use ring::{Ring, RingNames};

#[cfg(test)]
mod tests;
