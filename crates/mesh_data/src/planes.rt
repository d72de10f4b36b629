//! Planes of triangles.

use oemm_lists::{Copied, List};
use std::alloc::{AllocError, Global};

/// The plane of a triangle, not normalised: the points p with n·p + d = 0, where n is the cross product of two sides.
#[derive(Clone, Copy, Debug, PartialEq, Eq)]
pub struct Plane {
    pub nx: i64,
    pub ny: i64,
    pub nz: i64,
    pub d: i64,
}

/// A list of planes.
pub type Planes = List<Plane>;

impl Copied for Plane {
    fn copy(&self, alloc: Global) -> Result<Plane, AllocError> {
        Ok(*self)
    }
}
