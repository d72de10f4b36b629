//! The index of a store, and the entries of its journal by their numbers.

use mesh_data::Entry;
use oemm_lists::Copied;
use oemm_octree::Cells;
use std::alloc::{AllocError, Global};

/// What a store says of its mesh as a whole: the greatest number of vertices of a leaf that may be split no further
/// than it is, and of leaves that a task may check out; the numbers of vertices, faces and border edges and the Euler
/// characteristic of the mesh that was stored; and the cells of the leaves in depth-first order.
#[derive(Debug, Drop)]
pub struct IndexSheet {
    /// 1 to 65,536.
    pub cap: u32,
    /// 1 to 4,096.
    pub core: u32,
    /// At most 2^24.
    pub vertices: u32,
    /// At most 2^24.
    pub faces: u32,
    pub euler: i32,
    pub border: u32,
    pub cells: Cells,
}

impl Copied for IndexSheet {
    fn copy(&self, alloc: Global) -> Result<IndexSheet, AllocError> {
        Ok(IndexSheet {
            cap: self.cap,
            core: self.core,
            vertices: self.vertices,
            faces: self.faces,
            euler: self.euler,
            border: self.border,
            cells: self.cells.copy(alloc)?,
        })
    }
}

/// An entry of a journal, and how many stand before it.
#[derive(Debug, Drop)]
pub struct NumberedEntry {
    pub number: u32,
    pub entry: Entry,
}

impl Copied for NumberedEntry {
    fn copy(&self, alloc: Global) -> Result<NumberedEntry, AllocError> {
        Ok(NumberedEntry {
            number: self.number,
            entry: self.entry.copy(alloc)?,
        })
    }
}
