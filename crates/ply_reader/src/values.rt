//! What is read of a record.

use mesh_data::Tri;
use oemm_octree::Point;
use ply_header::ByteOrder;

/// Which record is read.
#[derive(Clone, Copy)]
pub struct Record {
    pub order: ByteOrder,
    /// How many bytes stand before it.
    pub at: u64,
    /// Its number among the vertices or among the faces, counted from 0.
    pub number: u32,
    /// How many vertices the file declares, which bounds its indices.
    pub vertices: u32,
}

/// What was read of a record so far.
#[derive(Clone, Copy)]
pub struct Values {
    /// Each coordinate that was read, and 0 for each that wasn't.
    pub point: Point,
    pub face: Option<Tri>,
}
