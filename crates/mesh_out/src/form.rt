//! The formats that a mesh is written in, and what can keep it from being written.

ghost use Rattle.std.specs.Prelude.{◌≡◌};

use oemm_io::Failed;

/// The format of a mesh's file.
#[derive(Clone, Copy, Debug, PartialEq, Eq)]
pub enum Form {
    /// ASCII OFF.
    Off,
    /// Binary PLY, with the low bytes first.
    Ply,
}

/// What can keep a mesh from being written.
#[derive(Clone, Copy, Debug, PartialEq, Eq)]
pub enum OutFault {
    /// The sink failed.
    Write,
    /// Memory is wanting.
    Memory,
}

impl From<Failed> for OutFault {
    ghost use Rattle.mesh_out.specs.declared.form.OutFault.TheVariants.{Write};

    ghost from_gives = { λ _ fault. fault ≡ Write };

    fn from(_: Failed) -> OutFault {
        OutFault::Write
    }
}
