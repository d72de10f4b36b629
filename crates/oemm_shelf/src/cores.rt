//! The sheets of several leaves, and the patch of a core, read from a store.

ghost use Rattle.std.specs.Prelude.{◌≡◌, ◌≤◌, ◌+◌, ◌++◌, [], not, length, map, All, IfOk, IfErr, OnOk};
ghost use Rattle.std.specs.List.{filter, flat_map};
ghost use Rattle.fault_counts.specs.Counts.{TellsFailure};
ghost use Rattle.oemm_lists.specs.Numbers.{among};
ghost use Rattle.oemm_octree.specs.Leaves.{AreBelow};
ghost use Rattle.oemm_blobs.specs.Store.{IfTold, Keeps};
ghost use Rattle.mesh_sheets.specs.Assembled.{rim_of};
ghost use Rattle.sheet_forms.specs.Formed.{IsSheetOf};
ghost use Rattle.oemm_shelf.specs.Cached.{RoseBy};
ghost use Rattle.oemm_shelf.specs.Readings.{Answers, current_patch, current_sheets};
ghost use Rattle.oemm_shelf.specs.Shelves.{IsShelf, Reads};
ghost use Rattle.oemm_shelf.specs.Shown.{IsWithinRim, ShowsLeaf, ShowsPatch};

use crate::fault::ShelfFault;
use crate::sheets::read_sheet;
use neighbour_index::set_of;
use oemm_blobs::Blobs;
use oemm_octree::{LeafNo, LeafSet};
use patch_assembly::assemble;
use sheet_data::{IndexSheet, LeafSheet, Patch, Sheets};
use std::alloc::{AllocError, Global};

/// The sheets of leaves in their present versions, or the fault of the first of them that has one.
pub fn read_sheets<B: Blobs>(
    alloc: Global,
    blobs: &mut B,
    index: &IndexSheet,
    versions: &[u32],
    leaves: &[LeafNo],
) -> Result<Sheets, ShelfFault>
    requires shelf { IsShelf index.now versions.now }
    requires below { AreBelow (length index.now.cells) leaves.now }
    ensures told { IfTold (B.store blobs.old).content
        (λ m. Answers result (current_sheets index.now versions.now m leaves.now)) }
    ensures leaves { IfOk result (λ sheets. map (λ s. s.leaf) sheets ≡ leaves.now) }
    ensures formed { IfOk result
        (λ sheets. All (λ s. IsSheetOf index.now.cells index.now.vertices s.leaf s) sheets) }
    ensures shows { IfErr result (ShowsLeaf index.now versions.now) }
    ensures reads { Reads (length leaves.now) (B.store blobs.old) (B.store blobs.new) }
    ensures each { OnOk result (RoseBy (length leaves.now) (B.store blobs.old).gets (B.store blobs.new).gets) }
    ensures cause { TellsFailure ShelfFault.Store (B.store blobs.old).faults (B.store blobs.new).faults result }
{
    let mut sheets = Sheets::new(alloc);
    for leaf in leaves {
        let version = versions[leaf.0 as usize];
        let sheet = read_sheet(alloc, blobs, index, *leaf, version)?;
        sheets.add(sheet)?;
    }
    Ok(sheets)
}

/// Puts those of the leaves that lie outside the core at the end.
fn add_outside(out: &mut Vec<LeafNo>, core: &LeafSet, near: &[LeafNo]) -> Result<(), AllocError>
    ensures { OnOk result (out.new.items ≡ out.old.items ++ filter (λ l. not (among l core.now)) near.now) }
{
    for leaf in near {
        if !core.has(*leaf) {
            out.push(*leaf)?;
        }
    }
    Ok(())
}

/// The leaves outside the core that its sheets name, as often as they do.
fn named_outside(
    alloc: Global,
    core: &LeafSet,
    inner: &[LeafSheet],
) -> Result<Vec<LeafNo>, AllocError>
    ensures { IfOk result (λ leaves. leaves.items
        ≡ flat_map (λ s. filter (λ l. not (among l core.now)) s.near) inner.now) }
{
    let mut leaves = Vec::new(alloc);
    for sheet in inner {
        add_outside(&mut leaves, core, sheet.near.slice())?;
    }
    Ok(leaves)
}

/// The leaves outside the core that its own sheets name.
///
/// # Errors
/// Want of memory.
fn rim_of(
    alloc: Global,
    index: &IndexSheet,
    core: &LeafSet,
    inner: &[LeafSheet],
) -> Result<LeafSet, AllocError>
    requires { All (λ s. AreBelow (length index.now.cells) s.near) inner.now }
    ensures { IfOk result (λ rim. rim ≡ rim_of index.now.cells core.now inner.now) }
{
    let rim = set_of(named_outside(alloc, core, inner)?);
    let _ascending = rim.slice();
    Ok(rim)
}

/// The patch of a core, read from the sheets of its leaves and of those round it, each once.
///
/// # Errors
/// `Store` where the store fails; `Absent` or `Damaged` with the key of the first leaf of which it holds, those of the
/// core before those round it; `Clash` where the sheets are not of one mesh; and want of memory.
pub fn read_patch<B: Blobs>(
    alloc: Global,
    blobs: &mut B,
    index: &IndexSheet,
    versions: &[u32],
    core: &LeafSet,
) -> Result<Patch, ShelfFault>
    requires shelf { IsShelf index.now versions.now }
    requires below { AreBelow (length index.now.cells) core.now }
    ensures told { IfTold (B.store blobs.old).content
        (λ m. Answers result (current_patch index.now versions.now m core.now)) }
    ensures shows { ShowsPatch index.now versions.now core.now
        (B.store blobs.old).gets (B.store blobs.new).gets result }
    ensures keeps { Keeps (B.store blobs.old) (B.store blobs.new) }
    ensures kept_gets { (B.store blobs.old).gets ≤ (B.store blobs.new).gets }
    ensures puts { (B.store blobs.new).puts ≡ (B.store blobs.old).puts }
    ensures rim { IsWithinRim index.now versions.now core.now (B.store blobs.old).content
        (B.store blobs.old).gets (B.store blobs.new).gets [] [] }
    ensures each { OnOk result (RoseBy (length core.now) (B.store blobs.old).gets (B.store blobs.new).gets) }
    ensures cause { TellsFailure ShelfFault.Store (B.store blobs.old).faults (B.store blobs.new).faults result }
{
    let inner = read_sheets(alloc, blobs, index, versions, core.slice())?;
    let rim = rim_of(alloc, index, core, inner.slice())?;
    let outer = read_sheets(alloc, blobs, index, versions, rim.slice())?;
    Ok(assemble(alloc, core, inner.slice(), outer.slice())?)
}
