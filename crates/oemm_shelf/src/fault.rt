//! What can keep sheets from being read.

use oemm_blobs::{Key, StoreFail};
use oemm_lists::Bytes;
use patch_assembly::{AssemblyFault, Clash};
use std::alloc::{AllocError, AllocFailed};

/// Why sheets are not answered.
#[derive(Debug, Drop)]
pub enum ShelfFault {
    /// The store failed.
    Store,
    /// These bytes, which stand under the key, are none that may: no index, no sheet of that leaf, or no entry behind
    /// those before it.
    Damaged { key: Key, bytes: Bytes },
    /// Nothing stands under the key of a leaf.
    Absent { key: Key },
    /// The sheets that were read are not of one mesh.
    Clash(Clash),
    /// Memory is wanting.
    Memory,
}

/// Why a store is not opened.
#[derive(Debug, Drop)]
pub enum FoundFault {
    /// It has no index.
    NotBuilt,
    Shelf(ShelfFault),
}

impl From<AllocError> for ShelfFault {
    ghost use Rattle.std.specs.Prelude.{◌≡◌};
    ghost use Rattle.oemm_shelf.specs.declared.fault.ShelfFault.TheVariants.{Memory};

    ghost from_gives = { λ _ fault. fault ≡ Memory };

    fn from(_: AllocError) -> ShelfFault {
        ShelfFault::Memory
    }
}

impl<T: Drop> From<AllocFailed<T>> for ShelfFault {
    ghost use Rattle.std.specs.Prelude.{◌≡◌};
    ghost use Rattle.oemm_shelf.specs.declared.fault.ShelfFault.TheVariants.{Memory};

    ghost from_gives = { λ _ fault. fault ≡ Memory };

    fn from(_: AllocFailed<T>) -> ShelfFault {
        ShelfFault::Memory
    }
}

impl From<StoreFail> for ShelfFault {
    ghost use Rattle.std.specs.Prelude.{◌≡◌};
    ghost use Rattle.oemm_shelf.specs.Readings.{store_fault};

    ghost from_gives = { λ fail fault. fault ≡ store_fault fail };

    fn from(fail: StoreFail) -> ShelfFault {
        match fail {
            StoreFail::Failed => ShelfFault::Store,
            StoreFail::Memory => ShelfFault::Memory,
        }
    }
}

impl From<AssemblyFault> for ShelfFault {
    ghost use Rattle.std.specs.Prelude.{◌≡◌};
    ghost use Rattle.oemm_shelf.specs.Readings.{assembly_fault};

    ghost from_gives = { λ why fault. fault ≡ assembly_fault why };

    fn from(why: AssemblyFault) -> ShelfFault {
        match why {
            AssemblyFault::Clash(clash) => ShelfFault::Clash(clash),
            AssemblyFault::Memory => ShelfFault::Memory,
        }
    }
}

impl From<ShelfFault> for FoundFault {
    ghost use Rattle.std.specs.Prelude.{◌≡◌};
    ghost use Rattle.oemm_shelf.specs.declared.fault.FoundFault.TheVariants as found;

    ghost from_gives = { λ why fault. fault ≡ found.Shelf why };

    fn from(why: ShelfFault) -> FoundFault {
        FoundFault::Shelf(why)
    }
}

impl From<AllocError> for FoundFault {
    ghost use Rattle.std.specs.Prelude.{◌≡◌};
    ghost use Rattle.oemm_shelf.specs.declared.fault.FoundFault.TheVariants as found;
    ghost use Rattle.oemm_shelf.specs.declared.fault.ShelfFault.TheVariants as shelf;

    ghost from_gives = { λ _ fault. fault ≡ found.Shelf shelf.Memory };

    fn from(_: AllocError) -> FoundFault {
        FoundFault::Shelf(ShelfFault::Memory)
    }
}
