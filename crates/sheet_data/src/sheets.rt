//! The sheets of leaves.

use mesh_data::{Name, Quad, Tris};
use oemm_lists::{Copied, List};
use oemm_octree::{LeafNo, LeafSet, Point};
use std::alloc::{AllocError, Global};
use std::marker::Model;

/// A vertex as sheets and patches have it: where it is, and the quadric by which collapses of it are measured.
/// Contracts see the quadric as its sums.
#[derive(Debug, Drop)]
pub struct SheetVertex {
    pub name: Name,
    pub point: Point,
    pub quad: Quad,
}

impl Model for SheetVertex {
    ghost use Rattle.mesh_data.specs.Quads.{sums_in};
    ghost use Rattle.sheet_data.specs.Summed.{SummedVertex};

    ghost Value = { SummedVertex };

    ghost view = { λ v. record { name = v.name; point = v.point; quad = sums_in v.quad } };
}

/// A list of such vertices.
pub type SheetVertices = List<SheetVertex>;

impl Copied for SheetVertex {
    fn copy(&self, alloc: Global) -> Result<SheetVertex, AllocError> {
        Ok(SheetVertex {
            name: self.name,
            point: self.point,
            quad: self.quad,
        })
    }
}

/// What is kept of a leaf: the vertices whose home it is, ascending by name, the faces that it keeps, in order, and
/// the other leaves that some face has a corner in as well as in this one.
#[derive(Debug, Drop)]
pub struct LeafSheet {
    pub leaf: LeafNo,
    pub vertices: SheetVertices,
    pub faces: Tris,
    pub near: LeafSet,
}

/// A list of sheets.
pub type Sheets = List<LeafSheet>;

impl Copied for LeafSheet {
    fn copy(&self, alloc: Global) -> Result<LeafSheet, AllocError> {
        Ok(LeafSheet {
            leaf: self.leaf,
            vertices: self.vertices.copy(alloc)?,
            faces: self.faces.copy(alloc)?,
            near: self.near.copy(alloc)?,
        })
    }
}
