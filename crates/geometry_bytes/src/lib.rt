//! Points, triangles and quadrics as bytes.
#![tactic(auto)]

mod geometry;
mod sums;

pub use geometry::{
    face_at, is_turned, name_known, point_at, point_known, put_face, put_point, tri_known,
};
pub use sums::{put_quad, quad_at, quad_known};

#[cfg(test)]
mod tests;
