//! Points of the grid.

use oemm_lists::{Copied, List};
use std::alloc::{AllocError, Global};

/// A point of the 16-bit grid.
#[derive(Clone, Copy, Debug, PartialEq, Eq)]
pub struct Point {
    pub x: i16,
    pub y: i16,
    pub z: i16,
}

/// A list of points.
pub type Points = List<Point>;

impl Copied for Point {
    fn copy(&self, alloc: Global) -> Result<Point, AllocError> {
        Ok(*self)
    }
}
