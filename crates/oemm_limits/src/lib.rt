//! The limits of meshes, files, scripts, octrees and stores, each once. Contracts cite them by their names.

mod what;

pub use what::What;

/// The greatest number of vertices, and that of faces, of a mesh.
pub const MOST_ITEMS: u64 = 1 << 24;

/// The greatest number of bytes of a mesh's file that are looked at.
pub const MOST_MESH_BYTES: u64 = 1 << 33;

/// The greatest number of bytes of a script.
pub const MOST_SCRIPT_BYTES: usize = 1 << 26;

/// The greatest number of bytes of a line before its line feed.
pub const MOST_LINE_BYTES: u64 = 1 << 16;

/// The greatest number of tasks of a script, and that of entries of a journal.
pub const MOST_TASKS: usize = 1 << 20;

/// The greatest number of edits of a task.
pub const MOST_EDITS: usize = 1 << 16;

/// The greatest number of a lane.
pub const LAST_LANE: u8 = 63;

/// The greatest depth of a cell of the octree.
pub const MOST_DEPTH: u8 = 6;

/// The greatest number of leaves of the octree, which is the number of cells of the greatest depth.
pub const MOST_LEAVES: u32 = 1 << 18;

/// The greatest number of vertices up to which a leaf may be left uncut.
pub const MOST_CAP: u32 = 1 << 16;

/// The greatest number of leaves that a task may be allowed to check out.
pub const MOST_CORE: u32 = 1 << 12;

/// The greatest bound of a cost, and the greatest size of one in a reply.
pub const MOST_COST: u128 = 1 << 126;

/// The number of vertices up to which a leaf isn't cut, where the words ask for no other.
pub const DEFAULT_CAP: u32 = 4096;

/// The greatest number of leaves of a task's core, where the words ask for no other.
pub const DEFAULT_CORE: u32 = 64;

/// The number of sheets that are kept in memory, where the words ask for no other.
pub const DEFAULT_CACHE: u32 = 32;
