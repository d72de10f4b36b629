//! Planes of triangles, and the quadrics of lists of planes, in exact whole numbers.
#![tactic(auto)]

pub mod laws;
mod quad_sums;
mod triangle_planes;

pub use quad_sums::QuadSums;
pub use triangle_planes::{folds, plane_of};
