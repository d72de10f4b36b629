//! The puts of sheets and of the index.

ghost use Rattle.std.specs.Prelude.{◌≡◌, ◌<◌, ◌≤◌, ℕ, length, IfErr, IfOk, OnErr, OnOk};
ghost use Rattle.fault_counts.specs.Counts.{TellsFailure};
ghost use Rattle.oemm_limits.specs.declared.TheConstants.{MOST_LEAVES};
ghost use Rattle.leaf_codec.specs.Sheets.{KeepsSheetRules};
ghost use Rattle.mesh_cutting.specs.Cuts.{mesh_in};
ghost use Rattle.mesh_sheets.specs.Sheets.{sheet};
ghost use Rattle.oemm_shelf.specs.Shelves.{IsSame};
ghost use Rattle.oemm_build.specs.Building.{numbers_of};
ghost use Rattle.oemm_build.specs.Faults.{IsOfStore};
ghost use Rattle.oemm_build.specs.Items.{IsFit};
ghost use Rattle.oemm_build.specs.Laying.{Lays, LaysAll, Stops};

use crate::fault::BuildFault;
use crate::planning::Plan;
use mesh_cutting::MeshCut;
use oemm_blobs::{Blobs, StoreFail};
use oemm_octree::LeafNo;
use oemm_shelf::{Shelf, ShelfFault};
use std::alloc::Global;

/// Puts the sheets of all leaves in version 0, in their order. One sheet at a time is in memory.
fn lay_sheets<B: Blobs>(alloc: Global, shelf: &mut Shelf<B>, cut: &MeshCut) -> Result<(), StoreFail>
    requires few { length cut.now.cells ≤ MOST_LEAVES }
    requires rules { (leaf : ℕ) → leaf < length cut.now.cells
        → KeepsSheetRules (sheet cut.now.cells (mesh_in cut.now) leaf) }
    ensures laid { OnOk result (Lays cut.now.cells (mesh_in cut.now) (length cut.now.cells)
        (B.store shelf.old.blobs) (B.store shelf.new.blobs)) }
    ensures stops { OnErr result (Stops (B.store shelf.old.blobs) (B.store shelf.new.blobs)) }
    ensures same { IsSame shelf.old shelf.new }
    ensures gets { (B.store shelf.new.blobs).gets ≡ (B.store shelf.old.blobs).gets }
    ensures cause { TellsFailure StoreFail.Failed
        (B.store shelf.old.blobs).faults (B.store shelf.new.blobs).faults result }
{
    for leaf in 0..cut.cells().len() as u32 {
        let sheet = cut.sheet(alloc, LeafNo(leaf))?;
        shelf.put_sheet(alloc, 0, &sheet)?;
    }
    Ok(())
}

/// Puts the sheets of all leaves in version 0, and the index behind them.
fn lay<B: Blobs>(alloc: Global, shelf: &mut Shelf<B>, cut: &MeshCut) -> Result<(), StoreFail>
    requires same { cut.now.cells ≡ shelf.old.index.cells }
    requires few { length cut.now.cells ≤ MOST_LEAVES }
    requires rules { (leaf : ℕ) → leaf < length cut.now.cells
        → KeepsSheetRules (sheet cut.now.cells (mesh_in cut.now) leaf) }
    ensures puts { LaysAll shelf.old.index (mesh_in cut.now)
        (B.store shelf.old.blobs) (B.store shelf.new.blobs) result }
    ensures gets { (B.store shelf.new.blobs).gets ≡ (B.store shelf.old.blobs).gets }
    ensures cause { TellsFailure StoreFail.Failed
        (B.store shelf.old.blobs).faults (B.store shelf.new.blobs).faults result }
{
    lay_sheets(alloc, shelf, cut)?;
    shelf.put_index(alloc)
}

/// Puts what is planned, and answers its numbers.
///
/// # Errors
/// `Shelf` where the store fails, and `Memory`.
pub fn lay_plan<B: Blobs>(alloc: Global, blobs: B, plan: Plan) -> (B, Result<(), BuildFault>)
    requires { IsFit plan }
    ensures puts { LaysAll plan.index (mesh_in plan.cut) (B.store blobs) (B.store result.0) result.1 }
    ensures fault { IfErr result.1 IsOfStore }
    ensures gets { (B.store result.0).gets ≡ (B.store blobs).gets }
    ensures cause { TellsFailure (BuildFault.Shelf ShelfFault.Store)
        (B.store blobs).faults (B.store result.0).faults result.1 }
{
    let Plan { index, cut } = plan;
    let mut shelf = match Shelf::fresh(alloc, blobs, index, 0) {
        Ok(shelf) => shelf,
        Err((blobs, _)) => return (blobs, Err(BuildFault::Memory)),
    };
    match lay(alloc, &mut shelf, &cut) {
        Ok(()) => (shelf.into_blobs(), Ok(())),
        Err(fail) => (shelf.into_blobs(), Err(BuildFault::from(fail))),
    }
}
