//! What an audit answers.

use crate::names::Name;

/// What keeps triangles from being an oriented manifold.
#[derive(Clone, Copy, Debug, PartialEq, Eq)]
pub enum Shape {
    /// Two triangles have this directed edge, and no lesser one.
    Edge { a: Name, b: Name },
    /// This vertex is in a triangle and has no ring, and no lesser one.
    Vertex { v: Name },
}

/// What an audit of a mesh answers.
#[derive(Clone, Copy, Debug, PartialEq, Eq)]
pub enum Audit {
    /// The mesh is an oriented manifold.
    Good {
        vertices: u32,
        faces: u32,
        /// The Euler characteristic.
        euler: i32,
        /// The number of directed border edges.
        border: u32,
    },
    Bad(Shape),
}
