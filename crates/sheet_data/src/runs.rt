//! The pages of points and the runs of faces by which a mesh that doesn't fit into memory is stored.

use mesh_data::Tri;
use oemm_lists::{Copied, List};
use oemm_octree::{LeafNo, Point, Points};
use std::alloc::{AllocError, Global};

/// The points of names that stand together: page P has those of 65,536 P and on.
#[derive(Debug, Drop)]
pub struct PageSheet {
    pub page: u32,
    pub points: Points,
}

impl Copied for PageSheet {
    fn copy(&self, alloc: Global) -> Result<PageSheet, AllocError> {
        Ok(PageSheet {
            page: self.page,
            points: self.points.copy(alloc)?,
        })
    }
}

/// A face with the points of its names, in the same order.
#[derive(Clone, Copy, Debug, PartialEq, Eq)]
pub struct RunFace {
    pub tri: Tri,
    pub a: Point,
    pub b: Point,
    pub c: Point,
}

/// A list of such faces.
pub type RunFaces = List<RunFace>;

impl Copied for RunFace {
    fn copy(&self, alloc: Global) -> Result<RunFace, AllocError> {
        Ok(*self)
    }
}

/// A part, numbered from 0, of the faces that have a corner in a leaf.
#[derive(Debug, Drop)]
pub struct RunSheet {
    pub leaf: LeafNo,
    pub part: u32,
    pub records: RunFaces,
}

impl Copied for RunSheet {
    fn copy(&self, alloc: Global) -> Result<RunSheet, AllocError> {
        Ok(RunSheet {
            leaf: self.leaf,
            part: self.part,
            records: self.records.copy(alloc)?,
        })
    }
}
