//! The files that a mesh is written to.
#![tactic(auto)]

mod block;
mod form;
pub mod laws;
mod ply;
mod positions;
mod records;
mod stream;
mod whole;

pub use form::{Form, OutFault};
pub use positions::renumber;
pub use stream::MeshOut;
pub use whole::write_mesh;

#[cfg(test)]
mod tests;
