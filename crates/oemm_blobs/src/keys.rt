//! Where bytes stand in a store, and what a change puts there.

use oemm_lists::Bytes;
use oemm_octree::LeafNo;

/// Where some bytes stand in a store.
#[derive(Clone, Copy, Debug, PartialEq, Eq, PartialOrd, Ord)]
pub enum Key {
    /// What is said of the whole mesh.
    Index,
    /// The sheet of a leaf in one of its versions.
    Leaf { leaf: LeafNo, version: u32 },
    /// An entry of the journal.
    Entry(u32),
    /// Some of the points of a mesh that is being built.
    Page(u32),
    /// Some of the faces of a leaf of a mesh that is being built.
    Run { leaf: LeafNo, part: u32 },
}

/// A change of what a store holds: the bytes that stand under the key from then on, or None where none do.
#[derive(Debug, Drop)]
pub struct Change {
    pub key: Key,
    pub bytes: Option<Bytes>,
}
