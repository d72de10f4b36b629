//! Vertices, triangles and edges.

use crate::names::Name;
use crate::planes::Planes;
use oemm_lists::{Copied, List};
use oemm_octree::{Point, Points};
use std::alloc::{AllocError, Global};

/// What a mesh keeps of a vertex: where it is, and the planes by which collapses of it are measured.
#[derive(Debug, Drop)]
pub struct Vertex {
    pub point: Point,
    pub planes: Planes,
}

impl Copied for Vertex {
    fn copy(&self, alloc: Global) -> Result<Vertex, AllocError> {
        Ok(Vertex {
            point: self.point,
            planes: self.planes.copy(alloc)?,
        })
    }
}

/// A triangle, seen from the side from which its names go round counterclockwise.
#[derive(Clone, Copy, Debug, PartialEq, Eq, PartialOrd, Ord)]
pub struct Tri {
    pub a: Name,
    pub b: Name,
    pub c: Name,
}

/// A list of triangles.
pub type Tris = List<Tri>;

impl Copied for Tri {
    fn copy(&self, alloc: Global) -> Result<Tri, AllocError> {
        Ok(*self)
    }
}

/// The points and faces of a file. A face has three places of points.
#[derive(Debug, Drop)]
pub struct Soup {
    pub points: Points,
    pub faces: Tris,
}

/// The edge from `a` to `b`, as a triangle walks along it.
#[derive(Clone, Copy, Debug, PartialEq, Eq, PartialOrd, Ord)]
pub struct Edge {
    pub a: Name,
    pub b: Name,
}

/// A list of directed edges.
pub type Edges = List<Edge>;

impl Copied for Edge {
    fn copy(&self, alloc: Global) -> Result<Edge, AllocError> {
        Ok(*self)
    }
}
