//! The tile script of a store: a task for each leaf that has a vertex.

ghost use Rattle.std.specs.Prelude.{◌≡◌, ◌≤◌, ◌^◌, [], ◌++◌, length, IfOk, IfErr, OnOk};
ghost use Rattle.std.specs.List.{range_with_len};
ghost use Rattle.fault_counts.specs.Counts.{TellsFailure};
ghost use Rattle.oemm_lists.specs.Ascending.{IsAboveLast};
ghost use Rattle.oemm_octree.specs.Leaves.{AreBelow};
ghost use Rattle.oemm_blobs.specs.Store.{IfTold};
ghost use Rattle.edit_script.specs.Ranges.{IsCostBound};
ghost use Rattle.oemm_shelf.specs.Readings.{Answers};
ghost use Rattle.oemm_shelf.specs.Shelves.{IsSame, Reads};
ghost use Rattle.oemm_shelf.specs.Shown.{ShowsLeaf};
ghost use Rattle.oemm_make.specs.Fits.{FitsScript};
ghost use Rattle.oemm_make.specs.Held.{held_by, held_leaves, tile_script};
ghost use Rattle.oemm_make.specs.Text.{script_text};

use crate::leaf_tasks::tiles;
use mesh_data::{Edit, Script};
use oemm_blobs::Blobs;
use oemm_limits::{MOST_ITEMS, MOST_SCRIPT_BYTES};
use oemm_octree::{LeafNo, LeafSet};
use oemm_shelf::{Shelf, ShelfFault};
use sheet_data::LeafSheet;
use std::alloc::{AllocError, Global};

/// Puts a leaf at the end where its sheet has a vertex.
fn add_held(held: &mut LeafSet, leaf: LeafNo, sheet: &LeafSheet) -> Result<(), AllocError>
    requires { IsAboveLast leaf held.old }
    ensures { OnOk result (held.new ≡ held.old ++ held_by leaf sheet.now) }
{
    if !sheet.vertices.is_empty() {
        held.add(leaf)?;
    }
    Ok(())
}

/// The leaves that have a vertex. Each leaf's sheet is read once, and none is kept.
fn held_leaves<B: Blobs>(alloc: Global, shelf: &mut Shelf<B>) -> Result<LeafSet, ShelfFault>
    ensures told { IfTold (B.store shelf.old.blobs).content
        (λ m. Answers result (held_leaves shelf.old.index shelf.old.versions m
        (range_with_len 0 (length shelf.old.index.cells)))) }
    ensures below { IfOk result (AreBelow (length shelf.old.index.cells)) }
    ensures shows { IfErr result (ShowsLeaf shelf.old.index shelf.old.versions) }
    ensures same { IsSame shelf.old shelf.new }
    ensures reads { Reads (length shelf.old.index.cells) (B.store shelf.old.blobs) (B.store shelf.new.blobs) }
    ensures cause { TellsFailure ShelfFault.Store
        (B.store shelf.old.blobs).faults (B.store shelf.new.blobs).faults result }
{
    let mut held = LeafSet::new(alloc);
    let count = shelf.cells().len() as u32;
    for leaf in 0..count {
        let sheet = shelf.sheet(alloc, LeafNo(leaf))?;
        add_held(&mut held, LeafNo(leaf), &sheet)?;
    }
    Ok(held)
}

/// The tile script of a store: a task for each leaf that has a vertex in the present mesh, which simplifies up to this
/// bound of a cost and down to this number of triangles. Its text is read back as itself. Each leaf's sheet is read
/// once, and one at a time.
///
/// # Errors
/// `Absent` or `Damaged` with the key of the first leaf of which it holds; `Store` where the store fails; and want of
/// memory.
pub fn tile<B: Blobs>(
    alloc: Global,
    shelf: &mut Shelf<B>,
    max: i128,
    target: u32,
) -> Result<Script, ShelfFault>
    requires max { IsCostBound max }
    requires target { target ≤ MOST_ITEMS }
    ensures told { IfTold (B.store shelf.old.blobs).content
        (λ m. Answers result (tile_script shelf.old.index shelf.old.versions m max target)) }
    ensures fits { IfOk result (λ script. FitsScript script.tasks) }
    ensures short { IfOk result (λ script. length (script_text script.tasks) ≤ MOST_SCRIPT_BYTES) }
    ensures shows { IfErr result (ShowsLeaf shelf.old.index shelf.old.versions) }
    ensures same { IsSame shelf.old shelf.new }
    ensures reads { Reads (length shelf.old.index.cells) (B.store shelf.old.blobs) (B.store shelf.new.blobs) }
    ensures cause { TellsFailure ShelfFault.Store
        (B.store shelf.old.blobs).faults (B.store shelf.new.blobs).faults result }
{
    let leaves = held_leaves(alloc, shelf)?;
    let _ascending = leaves.slice();
    let tasks = tiles(
        alloc,
        shelf.cells(),
        &leaves,
        &Edit::Simplify { max, target },
    )?;
    Ok(Script { tasks })
}
