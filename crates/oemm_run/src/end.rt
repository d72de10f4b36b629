//! How a command ends.

ghost use Rattle.std.specs.Prelude.{◌≡◌};
ghost use Rattle.oemm_run.specs.End.{status_of};

use edit_script::ScriptWhy;
use mesh_data::Shape;
use mesh_items::MeshWhy;
use oemm_limits::What;

/// How a command ended.
#[derive(Clone, Copy, Debug, PartialEq, Eq)]
pub enum End {
    /// All was done that the words ask for.
    Done,
    /// The words are in no form.
    Usage,
    /// The mesh's source failed.
    ReadMesh,
    /// The script's source failed.
    ReadScript,
    /// The first fault of the mesh's text, and the number of bytes before its line or record, or in all where the text
    /// is cut.
    MeshText { at: u64, why: MeshWhy },
    /// What keeps the mesh from being an oriented manifold.
    MeshShape(Shape),
    /// The first fault of the script's text, and its line, counted from 1.
    ScriptText { line: u32, why: ScriptWhy },
    /// The sink of the mesh failed. It holds a prefix of the bytes.
    WriteOut,
    /// The sink of the report failed. It holds a prefix of the text.
    WriteReport,
    /// A limit is passed.
    Limit { what: What, count: u64 },
    Memory,
}

/// The exit status of an end, 0 to 9.
pub fn status(end: &End) -> u8
    ensures { result ≡ status_of end.now }
{
    match end {
        End::Done => 0,
        End::Usage => 1,
        End::ReadMesh | End::ReadScript => 2,
        End::MeshText { .. } => 3,
        End::MeshShape(_) => 4,
        End::ScriptText { .. } => 5,
        End::WriteOut | End::WriteReport => 7,
        End::Limit { .. } => 8,
        End::Memory => 9,
    }
}
