//! What a store does.

ghost use Rattle.std.specs.Prelude.{◌≡◌, ◌≤◌, Some, None, IfOk};
ghost use Rattle.fault_counts.specs.Counts.{TellsFailure};
ghost use Rattle.oemm_blobs.specs.Content.{blob_at};
ghost use Rattle.oemm_blobs.specs.Store.{StoreState, Elapses, Changes, Keeps, IfTold, CountsOne};

use crate::keys::Key;
use oemm_lists::Bytes;
use std::alloc::{AllocError, AllocFailed, Global};

/// Why a call of a store failed.
#[derive(Clone, Copy, Debug, PartialEq, Eq)]
pub enum StoreFail {
    /// The store failed.
    Failed,
    /// Memory is wanting.
    Memory,
}

impl From<AllocError> for StoreFail {
    ghost use Rattle.oemm_blobs.specs.declared.blobs.StoreFail.TheVariants.{Memory};

    ghost from_gives = { λ _ fault. fault ≡ Memory };

    fn from(_: AllocError) -> StoreFail {
        StoreFail::Memory
    }
}

impl<T: Drop> From<AllocFailed<T>> for StoreFail {
    ghost use Rattle.oemm_blobs.specs.declared.blobs.StoreFail.TheVariants.{Memory};

    ghost from_gives = { λ _ fault. fault ≡ Memory };

    fn from(_: AllocFailed<T>) -> StoreFail {
        StoreFail::Memory
    }
}

/// Bytes under keys, which may be told or not.
///
/// Each get and each put is counted, whatever it answers. A refused call leaves what is told as it was.
pub trait Blobs {
    /// What contracts see of the store.
    ghost store: { Self → StoreState };

    /// Puts the bytes under the key, in place of those that stand there.
    ///
    /// # Errors
    /// `Failed` where the store fails, and `Memory`.
    fn put(&mut self, alloc: Global, key: Key, bytes: &[u8]) -> Result<(), StoreFail>
        ensures changes { Changes (record { key = key; bytes = Some bytes.now })
            (store self.old) (store self.new) result }
        ensures time { Elapses (store self.old) (store self.new) }
        ensures gets { (store self.new).gets ≡ (store self.old).gets }
        ensures puts { CountsOne (store self.old).puts (store self.new).puts }
        ensures cause { TellsFailure StoreFail.Failed (store self.old).faults (store self.new).faults result };

    /// The bytes under the key, or None where none stand there.
    ///
    /// # Errors
    /// `Failed` where the store fails, and `Memory`.
    fn get(&mut self, alloc: Global, key: Key) -> Result<Option<Bytes>, StoreFail>
        ensures gives { IfOk result (λ found. IfTold (store self.old).content (λ m. found ≡ blob_at m key)) }
        ensures keeps { Keeps (store self.old) (store self.new) }
        ensures time { Elapses (store self.old) (store self.new) }
        ensures gets { CountsOne (store self.old).gets (store self.new).gets }
        ensures puts { (store self.new).puts ≡ (store self.old).puts }
        ensures cause { TellsFailure StoreFail.Failed (store self.old).faults (store self.new).faults result };

    /// Takes away the bytes under the key. It is Ok where none stand there.
    ///
    /// # Errors
    /// `Failed` where the store fails, and `Memory`.
    fn erase(&mut self, alloc: Global, key: Key) -> Result<(), StoreFail>
        ensures changes { Changes (record { key = key; bytes = None }) (store self.old) (store self.new) result }
        ensures time { Elapses (store self.old) (store self.new) }
        ensures gets { (store self.new).gets ≡ (store self.old).gets }
        ensures puts { (store self.new).puts ≡ (store self.old).puts }
        ensures cause { TellsFailure StoreFail.Failed (store self.old).faults (store self.new).faults result };
}
