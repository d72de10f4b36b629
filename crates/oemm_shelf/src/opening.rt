//! What a store is opened with.

ghost use Rattle.std.specs.Prelude.{◌≡◌, ◌+◌, ◌≤◌, length, IfOk, IfErr, IfSome};
ghost use Rattle.fault_counts.specs.Counts.{TellsFailure};
ghost use Rattle.oemm_octree.specs.Leaves.{AreTiles};
ghost use Rattle.oemm_blobs.specs.Content.{blob_at};
ghost use Rattle.oemm_blobs.specs.Store.{IfTold, Keeps};
ghost use Rattle.oemm_blobs.specs.declared.keys.Key.TheVariants as key;
ghost use Rattle.leaf_codec.specs.Index.{KeepsIndexRules};
ghost use Rattle.oemm_shelf.specs.Opened.{Finds, found_in, index_found, index_in};
ghost use Rattle.oemm_shelf.specs.Shelves.{AreVersions, IsShelf, Reads};
ghost use Rattle.oemm_shelf.specs.Shown.{AreEntries, ShowsFound, found_of};

use crate::entries::read_entries;
use crate::fault::{FoundFault, ShelfFault};
use crate::sheets::{get_bytes, or_damaged};
use crate::versions::versions_by;
use leaf_codec::{Blob, CodecFault};
use mesh_data::Entries;
use oemm_blobs::{Blobs, Key};
use oemm_octree::tiles;
use sheet_data::IndexSheet;
use std::alloc::{AllocError, Global};

/// The index that the bytes are, if they are one.
///
/// # Errors
/// Want of memory.
fn index_from(alloc: Global, bytes: &[u8]) -> Result<Option<IndexSheet>, AllocError>
    ensures is { IfOk result (λ index. index ≡ index_in bytes.now) }
    ensures tiles { IfOk result (λ index. IfSome index (λ i. AreTiles i.cells)) }
    ensures rules { IfOk result (λ index. IfSome index KeepsIndexRules) }
{
    match IndexSheet::decode(alloc, bytes) {
        Ok(index) => {
            if tiles(&index.cells) {
                Ok(Some(index))
            } else {
                Ok(None)
            }
        }
        Err(CodecFault::Bad { .. }) => Ok(None),
        Err(CodecFault::Memory) => Err(AllocError),
    }
}

/// The index of a store.
///
/// # Errors
/// `NotBuilt` where there is none, `Damaged` where what stands there is none, `Store` where the store fails; and want of
/// memory.
fn read_index<B: Blobs>(alloc: Global, blobs: &mut B) -> Result<IndexSheet, FoundFault>
    ensures told { IfTold (B.store blobs.old).content (λ m. Finds result (index_found (blob_at m key.Index))) }
    ensures tiles { IfOk result (λ index. AreTiles index.cells) }
    ensures rules { IfOk result KeepsIndexRules }
    ensures shows { IfErr result ShowsFound }
    ensures reads { Reads 1 (B.store blobs.old) (B.store blobs.new) }
    ensures cause { TellsFailure (FoundFault.Shelf ShelfFault.Store)
        (B.store blobs.old).faults (B.store blobs.new).faults result }
{
    let Some(bytes) = get_bytes(alloc, blobs, Key::Index)? else {
        return Err(FoundFault::NotBuilt);
    };
    let index = index_from(alloc, bytes.slice())?;
    Ok(or_damaged(Key::Index, bytes, index)?)
}

/// The index, the versions of its leaves by the entries, and the entries of a store.
pub fn read_store<B: Blobs>(
    alloc: Global,
    blobs: &mut B,
) -> Result<(IndexSheet, Vec<u32>, Entries), FoundFault>
    ensures told { IfTold (B.store blobs.old).content (λ m. Finds (found_of result) (found_in m)) }
    ensures shelf { IfOk result (λ x. IsShelf x.0 x.1.items) }
    ensures versions { IfOk result (λ x. AreVersions x.0 x.2 x.1.items) }
    ensures entries { IfOk result (λ x. AreEntries x.0 x.2) }
    ensures shows { IfErr result ShowsFound }
    ensures keeps { Keeps (B.store blobs.old) (B.store blobs.new) }
    ensures kept_gets { (B.store blobs.old).gets ≤ (B.store blobs.new).gets }
    ensures gets { IfOk result (λ x. (B.store blobs.new).gets ≤ (B.store blobs.old).gets + (length x.2 + 2)) }
    ensures puts { (B.store blobs.new).puts ≡ (B.store blobs.old).puts }
    ensures cause { TellsFailure (FoundFault.Shelf ShelfFault.Store)
        (B.store blobs.old).faults (B.store blobs.new).faults result }
{
    let index = read_index(alloc, blobs)?;
    let entries = read_entries(alloc, blobs, &index)?;
    let versions = versions_by(alloc, index.cells.len(), entries.slice())?;
    Ok((index, versions, entries))
}
