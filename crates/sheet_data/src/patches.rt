//! What a core sees of a mesh.

use crate::sheets::SheetVertices;
use mesh_data::{Tri, Tris};
use oemm_lists::{Copied, List};
use oemm_octree::{LeafNo, LeafSet};
use std::alloc::{AllocError, Global};

/// A triangle with one or two held vertices, and the leaf that keeps it.
#[derive(Clone, Copy, Debug, PartialEq, Eq)]
pub struct Mixed {
    pub leaf: LeafNo,
    pub tri: Tri,
}

/// A list of such triangles.
pub type Mixeds = List<Mixed>;

impl Copied for Mixed {
    fn copy(&self, alloc: Global) -> Result<Mixed, AllocError> {
        Ok(*self)
    }
}

/// The leaves outside the core that are near to a leaf of the core.
#[derive(Debug, Drop)]
pub struct NearList {
    pub leaf: LeafNo,
    pub outside: LeafSet,
}

/// A list of them, one for each leaf of a core.
pub type NearLists = List<NearList>;

impl Copied for NearList {
    fn copy(&self, alloc: Global) -> Result<NearList, AllocError> {
        Ok(NearList {
            leaf: self.leaf,
            outside: self.outside.copy(alloc)?,
        })
    }
}

/// What a core sees of a mesh: the vertices whose home lies in it, which are held, the triangles with three of them,
/// those with one or two, and what is near to its leaves outside of it.
#[derive(Debug, Drop)]
pub struct Patch {
    pub vertices: SheetVertices,
    pub whole: Tris,
    pub mixed: Mixeds,
    pub near: NearLists,
}

impl Copied for Patch {
    fn copy(&self, alloc: Global) -> Result<Patch, AllocError> {
        Ok(Patch {
            vertices: self.vertices.copy(alloc)?,
            whole: self.whole.copy(alloc)?,
            mixed: self.mixed.copy(alloc)?,
            near: self.near.copy(alloc)?,
        })
    }
}
