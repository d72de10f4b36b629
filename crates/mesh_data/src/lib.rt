//! The data of a triangle mesh and of its edits, and the definitions that contracts cite.
#![tactic(auto)]

mod edits;
mod geometry;
mod names;
mod planes;
mod quads;
mod rings;
mod shapes;

pub use edits::{Edit, Edits, Entries, Entry, Replies, Reply, Script, Step, Steps, Task, Tasks};
pub use geometry::{Edge, Edges, Soup, Tri, Tris, Vertex};
pub use names::{Lane, Name, NameSet};
pub use oemm_lists::{Bytes, Copied, List};
pub use oemm_octree::{Cell, Cells, LeafNo, LeafSet, Point, Points};
pub use planes::{Plane, Planes};
pub use quads::Quad;
pub use rings::{Names, Ring};
pub use shapes::{Audit, Shape};

#[cfg(test)]
mod tests;
