//! Why the mesh of a store is not written.

use mesh_out::OutFault;
use oemm_shelf::ShelfFault;

/// Why the mesh of a store is not written.
#[derive(Debug, Drop)]
pub enum ExportFault {
    /// The sheets are not answered, or are not of one mesh. It is never their want of memory.
    Shelf(ShelfFault),
    /// The sink failed.
    Write,
    /// Memory is wanting.
    Memory,
}

impl From<ShelfFault> for ExportFault {
    ghost use Rattle.std.specs.Prelude.{◌≡◌};
    ghost use Rattle.leaf_export.specs.Exported.{export_fault};

    ghost from_gives = { λ why fault. fault ≡ export_fault why };

    fn from(why: ShelfFault) -> ExportFault {
        match why {
            ShelfFault::Memory => ExportFault::Memory,
            other => ExportFault::Shelf(other),
        }
    }
}

impl From<OutFault> for ExportFault {
    ghost use Rattle.std.specs.Prelude.{◌≡◌};
    ghost use Rattle.leaf_export.specs.Exported.{out_fault};

    ghost from_gives = { λ why fault. fault ≡ out_fault why };

    fn from(why: OutFault) -> ExportFault {
        match why {
            OutFault::Write => ExportFault::Write,
            OutFault::Memory => ExportFault::Memory,
        }
    }
}
