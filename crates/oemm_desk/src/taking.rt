//! How a core is taken, with its patch.

ghost use Rattle.std.specs.Prelude.{◌≡◌, ◌≤◌, length, None, IfOk, OnErr, OnOk};
ghost use Rattle.fault_counts.specs.Counts.{TellsFailure};
ghost use Rattle.oemm_octree.specs.Leaves.{AreBelow};
ghost use Rattle.checkout_table.specs.Holders.{HoldersSet};
ghost use Rattle.oemm_blobs.specs.Store.{IfTold, Keeps};
ghost use Rattle.sheet_forms.specs.Formed.{IsPatchFor};
ghost use Rattle.oemm_shelf.specs.Cached.{RoseBy, lacking};
ghost use Rattle.oemm_shelf.specs.Readings.{Answers, current_patch};
ghost use Rattle.oemm_shelf.specs.Shelves.{IsSame};
ghost use Rattle.oemm_shelf.specs.Shown.{IsWithinRim, ShowsPatch};

use checkout_table::Table;
use oemm_blobs::Blobs;
use oemm_octree::LeafSet;
use oemm_shelf::{Shelf, ShelfFault};
use sheet_data::Patch;
use std::alloc::Global;

/// The patch of a core that its lane has just taken. Where it can't be read the core is given back.
///
/// # Errors
/// The shelf's.
pub fn patch_or_release<B: Blobs>(
    alloc: Global,
    shelf: &mut Shelf<B>,
    table: &mut Table,
    core: &LeafSet,
) -> Result<Patch, ShelfFault>
    requires below { AreBelow (length shelf.old.index.cells) core.now }
    requires places { length table.old ≡ length shelf.old.index.cells }
    ensures told { IfTold (B.store shelf.old.blobs).content
        (λ m. Answers result (current_patch shelf.old.index shelf.old.versions m core.now)) }
    ensures formed { IfOk result (IsPatchFor shelf.old.index.cells core.now) }
    ensures shows { ShowsPatch shelf.old.index shelf.old.versions core.now
        (B.store shelf.old.blobs).gets (B.store shelf.new.blobs).gets result }
    ensures kept { OnOk result (table.new ≡ table.old) }
    ensures released { OnErr result (HoldersSet None core.now table.old table.new) }
    ensures same { IsSame shelf.old shelf.new }
    ensures keeps { Keeps (B.store shelf.old.blobs) (B.store shelf.new.blobs) }
    ensures kept_gets { (B.store shelf.old.blobs).gets ≤ (B.store shelf.new.blobs).gets }
    ensures puts { (B.store shelf.new.blobs).puts ≡ (B.store shelf.old.blobs).puts }
    ensures rim { IsWithinRim shelf.old.index shelf.old.versions core.now (B.store shelf.old.blobs).content
        (B.store shelf.old.blobs).gets (B.store shelf.new.blobs).gets shelf.old.cached shelf.new.cached }
    ensures each { OnOk result (RoseBy (lacking shelf.old.cached shelf.old.versions core.now)
        (B.store shelf.old.blobs).gets (B.store shelf.new.blobs).gets) }
    ensures cause { TellsFailure ShelfFault.Store
        (B.store shelf.old.blobs).faults (B.store shelf.new.blobs).faults result }
{
    match shelf.patch(alloc, core) {
        Ok(patch) => Ok(patch),
        Err(fault) => {
            table.release(core);
            Err(fault)
        }
    }
}
