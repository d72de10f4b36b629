//! What the sheets of an octree's leaves hold, and what a core of leaves sees of a mesh.
#![tactic(auto)]

mod index;
mod patches;
mod runs;
mod sheets;

pub use index::{IndexSheet, NumberedEntry};
pub use patches::{Mixed, Mixeds, NearList, NearLists, Patch};
pub use runs::{PageSheet, RunFace, RunFaces, RunSheet};
pub use sheets::{LeafSheet, SheetVertex, SheetVertices, Sheets};

#[cfg(test)]
mod tests;
