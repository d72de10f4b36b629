//! What can keep a store from being built.

use mesh_data::Shape;
use mesh_items::MeshFault;
use mesh_soup::SoupFault;
use oemm_blobs::StoreFail;
use oemm_shelf::ShelfFault;
use std::alloc::AllocError;

/// Why a store is not built.
#[derive(Debug, Drop)]
pub enum BuildFault {
    /// What the items answered.
    Mesh(MeshFault),
    /// What is first wrong with the mesh of the items.
    Shape(Shape),
    /// The store has an index.
    AlreadyBuilt,
    /// The store failed.
    Shelf(ShelfFault),
    /// Memory is wanting.
    Memory,
}

impl From<AllocError> for BuildFault {
    ghost use Rattle.std.specs.Prelude.{◌≡◌};
    ghost use Rattle.oemm_build.specs.declared.fault.BuildFault.TheVariants.{Memory};

    ghost from_gives = { λ _ fault. fault ≡ Memory };

    fn from(_: AllocError) -> BuildFault {
        BuildFault::Memory
    }
}

impl From<SoupFault> for BuildFault {
    ghost use Rattle.std.specs.Prelude.{◌≡◌};
    ghost use Rattle.oemm_build.specs.Faults.{fault_of_soup};

    ghost from_gives = { λ why fault. fault ≡ fault_of_soup why };

    fn from(why: SoupFault) -> BuildFault {
        match why {
            SoupFault::Mesh(fault) => BuildFault::Mesh(fault),
            SoupFault::Memory => BuildFault::Memory,
        }
    }
}

impl From<StoreFail> for BuildFault {
    ghost use Rattle.std.specs.Prelude.{◌≡◌};
    ghost use Rattle.oemm_build.specs.Faults.{fault_of_store};

    ghost from_gives = { λ fail fault. fault ≡ fault_of_store fail };

    fn from(fail: StoreFail) -> BuildFault {
        match fail {
            StoreFail::Failed => BuildFault::Shelf(ShelfFault::Store),
            StoreFail::Memory => BuildFault::Memory,
        }
    }
}
