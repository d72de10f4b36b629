//! A whole triangle mesh in memory, on which edits and tasks are done by their definitions.
#![tactic(auto)]

mod costs;
mod effects;
pub mod laws;
mod plain_mesh;
mod plane_lists;
mod simplify;
mod verdicts;
mod vertex_map;

pub use edit_script::ScriptWhy;
pub use mesh_data::{
    Audit, Edge, Edges, Edit, Edits, Entries, Entry, Lane, Name, NameSet, Names, Plane, Planes,
    Quad, Replies, Reply, Ring, Script, Shape, Soup, Step, Steps, Task, Tasks, Tri, Tris, Vertex,
};
pub use mesh_items::{ElementKind, Item, Items, MeshFault, MeshWhy};
pub use oemm_limits::What;
pub use oemm_lists::{Bytes, Copied, List};
pub use oemm_octree::{Area, Cell, Cells, LeafNo, LeafSet, Point, Points, core_leaves};
pub use oemm_words::{CommandWord, CommandWords};
pub use plain_mesh::PlainMesh;
pub use triangle_lists::turned_tri;

#[cfg(test)]
mod tests;
