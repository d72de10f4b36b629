//! The points and the faces of the file of what stands in a store.

ghost use Rattle.std.specs.Prelude.{◌≡◌, ◌≤◌, List, length, Ok, Err, IfOk, IfErr};
ghost use Rattle.fault_counts.specs.Counts.{TellsFailure};
ghost use Rattle.oemm_blobs.specs.Store.{IfTold};
ghost use Rattle.mesh_sheets.specs.Export.{all_leaves};
ghost use Rattle.sheet_data.specs.declared.sheets.LeafSheet.{LeafSheet};
ghost use Rattle.oemm_shelf.specs.Readings.{Answers, current_sheets};
ghost use Rattle.oemm_shelf.specs.Shelves.{IsSame, Reads};
ghost use Rattle.oemm_shelf.specs.Shown.{ShowsLeaf};
ghost use Rattle.leaf_export.specs.Exported.{AreFew, AreOfAll, GivesParts, or_assembly};
ghost use Rattle.leaf_export.specs.Kept.{Keeps};

use crate::kept::Kept;
use mesh_data::Tris;
use oemm_blobs::Blobs;
use oemm_octree::{LeafNo, Points};
use oemm_shelf::{Shelf, ShelfFault};
use patch_assembly::AssemblyFault;
use std::alloc::Global;

/// What is kept of the present sheets of all leaves, each read once.
///
/// # Errors
/// The fault of the first leaf that has one.
fn read_all<B: Blobs>(alloc: Global, shelf: &mut Shelf<B>) -> Result<Kept, ShelfFault>
    ensures keeps { IfOk result (λ kept. (sheets : List LeafSheet) × AreOfAll shelf.old.index sheets × Keeps sheets kept
        × IfTold (B.store shelf.old.blobs).content (λ m.
        current_sheets shelf.old.index shelf.old.versions m (all_leaves shelf.old.index.cells) ≡ Ok sheets)) }
    ensures told { IfErr result (λ why. IfTold (B.store shelf.old.blobs).content (λ m. Answers {T = List LeafSheet} (Err why)
        (current_sheets shelf.old.index shelf.old.versions m (all_leaves shelf.old.index.cells)))) }
    ensures shows { IfErr result (ShowsLeaf shelf.old.index shelf.old.versions) }
    ensures same { IsSame shelf.old shelf.new }
    ensures reads { Reads (length shelf.old.index.cells) (B.store shelf.old.blobs) (B.store shelf.new.blobs) }
    ensures cause { TellsFailure ShelfFault.Store
        (B.store shelf.old.blobs).faults (B.store shelf.new.blobs).faults result }
{
    let leaves = shelf.index().cells.len() as u32;
    let mut kept = Kept::new(alloc);
    for leaf in 0..leaves {
        let sheet = shelf.sheet(alloc, LeafNo(leaf))?;
        kept.add(&sheet)?;
    }
    Ok(kept)
}

/// What is answered of parts that are made.
fn answer(made: Result<(Points, Tris), AssemblyFault>) -> Result<(Points, Tris), ShelfFault>
    ensures { result ≡ or_assembly made }
{
    match made {
        Ok(parts) => Ok(parts),
        Err(why) => Err(ShelfFault::from(why)),
    }
}

/// The points and the faces of the file of the present sheets of all leaves. Each is read once, one at a time; 10 bytes
/// are kept of each vertex, 4 of each name, and 12 of each face.
///
/// # Errors
/// The fault of the first leaf that has one; or what shows that the sheets are of no mesh; and want of memory.
pub(crate) fn read_parts<B: Blobs>(
    alloc: Global,
    shelf: &mut Shelf<B>,
) -> Result<(Points, Tris), ShelfFault>
    ensures gives { GivesParts (B.store shelf.old.blobs).content shelf.old.index shelf.old.versions result }
    ensures few { IfOk result AreFew }
    ensures same { IsSame shelf.old shelf.new }
    ensures reads { Reads (length shelf.old.index.cells) (B.store shelf.old.blobs) (B.store shelf.new.blobs) }
    ensures cause { TellsFailure ShelfFault.Store
        (B.store shelf.old.blobs).faults (B.store shelf.new.blobs).faults result }
{
    let below = shelf.index().vertices;
    match read_all(alloc, shelf) {
        Ok(kept) => answer(kept.into_parts(alloc, below)),
        Err(why) => Err(why),
    }
}
