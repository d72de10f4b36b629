//! The audit of the sheets of all leaves.

ghost use Rattle.std.specs.Prelude.{◌≡◌, ◌≤◌, List, length, Ok, Err, IfOk, IfErr};
ghost use Rattle.fault_counts.specs.Counts.{TellsFailure};
ghost use Rattle.oemm_limits.specs.declared.TheConstants.{MOST_ITEMS};
ghost use Rattle.oemm_blobs.specs.Store.{IfTold};
ghost use Rattle.mesh_sheets.specs.Export.{all_leaves};
ghost use Rattle.sheet_data.specs.declared.sheets.LeafSheet.{LeafSheet};
ghost use Rattle.oemm_shelf.specs.Readings.{Answers, current_sheets};
ghost use Rattle.oemm_shelf.specs.Shelves.{IsSame, Reads};
ghost use Rattle.oemm_shelf.specs.Shown.{ShowsLeaf};
ghost use Rattle.leaf_audit.specs.Audits.{AreOfAll, AuditsSheets, ShowsAudit, agreed_sheets};
ghost use Rattle.leaf_audit.specs.Tallies.{Tallies};

use crate::tally::Tally;
use face_audit::audit_faces;
use mesh_data::Audit;
use oemm_blobs::Blobs;
use oemm_octree::LeafNo;
use oemm_shelf::{Shelf, ShelfFault};
use std::alloc::Global;

/// What is kept of the present sheets of all leaves, each read once.
///
/// # Errors
/// The fault of the first leaf that has one.
fn read_all<B: Blobs>(alloc: Global, shelf: &mut Shelf<B>) -> Result<Tally, ShelfFault>
    ensures tallies { IfOk result (λ t. (sheets : List LeafSheet) × AreOfAll shelf.old.index sheets × Tallies sheets t
        × IfTold (B.store shelf.old.blobs).content (λ m.
        current_sheets shelf.old.index shelf.old.versions m (all_leaves shelf.old.index.cells) ≡ Ok sheets)) }
    ensures names { IfOk result (λ t. length t.times.items ≡ shelf.old.index.vertices) }
    ensures few { IfOk result (λ t. length t.times.items ≤ MOST_ITEMS) }
    ensures told { IfErr result (λ why. IfTold (B.store shelf.old.blobs).content (λ m. Answers {T = List LeafSheet} (Err why)
        (current_sheets shelf.old.index shelf.old.versions m (all_leaves shelf.old.index.cells)))) }
    ensures shows { IfErr result (ShowsLeaf shelf.old.index shelf.old.versions) }
    ensures same { IsSame shelf.old shelf.new }
    ensures reads { Reads (length shelf.old.index.cells) (B.store shelf.old.blobs) (B.store shelf.new.blobs) }
    ensures cause { TellsFailure ShelfFault.Store
        (B.store shelf.old.blobs).faults (B.store shelf.new.blobs).faults result }
{
    let index = shelf.index();
    let leaves = index.cells.len() as u32;
    let mut tally = Tally::new(alloc, index.vertices)?;
    for leaf in 0..leaves {
        let sheet = shelf.sheet(alloc, LeafNo(leaf))?;
        tally.add(&sheet)?;
    }
    Ok(tally)
}

/// The audit of the present sheets of all leaves: the least directed edge that two faces have, else the least vertex that is
/// in a face and has no ring, else their numbers. A face counts as often as the sheets have it. Each sheet is read once,
/// one at a time, and 12 bytes are kept of each face, and one of each name. For F faces it takes time of about F log F.
///
/// # Errors
/// `Absent` or `Damaged` with the key of the first leaf of which it holds; else a `Clash`, by the least name that two
/// vertices have, or more planes than a mesh has, or more faces than a mesh has, with their number; `Store` where the store
/// fails; and want of memory.
pub fn audit<B: Blobs>(alloc: Global, shelf: &mut Shelf<B>) -> Result<Audit, ShelfFault>
    ensures told { IfTold (B.store shelf.old.blobs).content
        (λ m. AuditsSheets result (agreed_sheets shelf.old.index shelf.old.versions m)) }
    ensures shows { ShowsAudit shelf.old.index shelf.old.versions result }
    ensures same { IsSame shelf.old shelf.new }
    ensures reads { Reads (length shelf.old.index.cells) (B.store shelf.old.blobs) (B.store shelf.new.blobs) }
    ensures cause { TellsFailure ShelfFault.Store
        (B.store shelf.old.blobs).faults (B.store shelf.new.blobs).faults result }
{
    let tally = read_all(alloc, shelf)?;
    if let Some(clash) = tally.clash() {
        return Err(ShelfFault::Clash(clash));
    }
    match audit_faces(alloc, tally.vertices as u32, tally.faces.as_slice()) {
        Ok(audit) => Ok(audit),
        Err(_) => Err(ShelfFault::Memory),
    }
}
