//! The limits that a file can pass.

/// What passed its limit.
#[derive(Clone, Copy, Debug, PartialEq, Eq)]
pub enum What {
    /// The vertices that a mesh's file counts.
    Vertices,
    /// The faces that a mesh's file counts.
    Faces,
    /// The bytes of a mesh's file that are looked at.
    MeshBytes,
    /// The bytes of a script.
    ScriptBytes,
    /// The bytes of a line before its line feed.
    LineBytes,
    /// The tasks of a script.
    Tasks,
    /// The edits of a task.
    Edits,
}
