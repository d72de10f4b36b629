//! The sheet of a leaf, read from a store.

ghost use Rattle.std.specs.Prelude.{◌≡◌, ◌<◌, ◌≤◌, ◌==◌, ◌&&◌, nat_lt, length, IfOk, IfErr, IfSome};
ghost use Rattle.std.specs.List.{list_all};
ghost use Rattle.fault_counts.specs.Counts.{TellsFailure, next_count};
ghost use Rattle.oemm_limits.specs.declared.TheConstants.{MOST_DEPTH};
ghost use Rattle.oemm_octree.specs.Leaves.{AreTiles};
ghost use Rattle.oemm_octree.specs.Octree.{cell_holds};
ghost use Rattle.mesh_data.specs.Triangles.{corners};
ghost use Rattle.leaf_codec.specs.Sheets.{KeepsSheetRules};
ghost use Rattle.oemm_blobs.specs.Content.{blob_at};
ghost use Rattle.oemm_blobs.specs.Store.{IfTold};
ghost use Rattle.oemm_blobs.specs.declared.keys.Key.TheVariants as key;
ghost use Rattle.sheet_forms.specs.Formed.{IsSheetOf};
ghost use Rattle.oemm_shelf.specs.Readings.{Answers, IsOfStore, is_of_leaf, or_damaged, sheet_at, sheet_in};
ghost use Rattle.oemm_shelf.specs.Shelves.{Reads};
ghost use Rattle.oemm_shelf.specs.Shown.{ShowsSheet};

use crate::fault::ShelfFault;
use leaf_codec::{Blob, CodecFault};
use mesh_data::Tri;
use oemm_blobs::{Blobs, Key};
use oemm_lists::Bytes;
use oemm_octree::{Cell, LeafNo};
use sheet_data::{IndexSheet, LeafSheet, SheetVertex};
use std::alloc::{AllocError, Global};

/// Whether the vertices have names below this and lie in the cell.
fn lie_in(cell: &Cell, names: u32, vertices: &[SheetVertex]) -> bool
    requires { cell.now.depth ≤ MOST_DEPTH }
    ensures { result ≡ list_all (λ x. nat_lt x.name names && cell_holds cell.now x.point) vertices.now }
{
    vertices
        .iter()
        .all(|x| x.name.0 < names && cell.holds(&x.point))
}

/// Whether the corners of the faces are names below this.
fn are_named(names: u32, faces: &[Tri]) -> bool
    ensures { result ≡ list_all (λ t. list_all (λ v. nat_lt v names) (corners t)) faces.now }
{
    faces
        .iter()
        .all(|t| t.a.0 < names && t.b.0 < names && t.c.0 < names)
}

/// Whether the leaves are among so many.
pub fn are_below(count: usize, leaves: &[LeafNo]) -> bool
    ensures { result ≡ list_all (λ l. nat_lt l count) leaves.now }
{
    leaves.iter().all(|leaf| (leaf.0 as usize) < count)
}

/// Whether the sheet says that it is of the leaf.
fn says_leaf(sheet: &LeafSheet, leaf: LeafNo) -> bool
    ensures { result ≡ (sheet.now.leaf == leaf) }
{
    sheet.leaf == leaf
}

/// Whether all four tests passed.
fn all_hold(a: bool, b: bool, c: bool, d: bool) -> bool
    ensures { result ≡ (a && (b && (c && d))) }
{
    a && b && c && d
}

/// Whether a sheet that was decoded is one of the leaf.
fn is_of_leaf(index: &IndexSheet, leaf: LeafNo, sheet: &LeafSheet) -> bool
    requires tiles { AreTiles index.now.cells }
    requires leaf { leaf < length index.now.cells }
    ensures { result ≡ is_of_leaf index.now leaf sheet.now }
{
    let cell = index.cells.at(leaf.0 as usize);
    let says = says_leaf(sheet, leaf);
    let lie = lie_in(cell, index.vertices, sheet.vertices.slice());
    let named = are_named(index.vertices, sheet.faces.slice());
    let below = are_below(index.cells.len(), sheet.near.slice());
    all_hold(says, lie, named, below)
}

/// The sheet of the leaf that the bytes are, if they are one.
///
/// # Errors
/// Want of memory.
fn sheet_from(
    alloc: Global,
    index: &IndexSheet,
    leaf: LeafNo,
    bytes: &[u8],
) -> Result<Option<LeafSheet>, AllocError>
    requires tiles { AreTiles index.now.cells }
    requires leaf { leaf < length index.now.cells }
    ensures is { IfOk result (λ sheet. sheet ≡ sheet_in index.now leaf bytes.now) }
    ensures formed { IfOk result
        (λ sheet. IfSome sheet (IsSheetOf index.now.cells index.now.vertices leaf)) }
    ensures rules { IfOk result (λ sheet. IfSome sheet KeepsSheetRules) }
{
    match LeafSheet::decode(alloc, bytes) {
        Ok(sheet) => {
            if is_of_leaf(index, leaf, &sheet) {
                Ok(Some(sheet))
            } else {
                Ok(None)
            }
        }
        Err(CodecFault::Bad { .. }) => Ok(None),
        Err(CodecFault::Memory) => Err(AllocError),
    }
}

/// What stands under a key.
///
/// # Errors
/// `Store` where the store fails, and want of memory.
pub fn get_bytes<B: Blobs>(
    alloc: Global,
    blobs: &mut B,
    key: Key,
) -> Result<Option<Bytes>, ShelfFault>
    ensures gives { IfOk result (λ found. IfTold (B.store blobs.old).content (λ m. found ≡ blob_at m key)) }
    ensures fails { IfErr result IsOfStore }
    ensures reads { Reads 1 (B.store blobs.old) (B.store blobs.new) }
    ensures once { (B.store blobs.new).gets ≡ next_count (B.store blobs.old).gets }
    ensures cause { TellsFailure ShelfFault.Store (B.store blobs.old).faults (B.store blobs.new).faults result }
{
    Ok(blobs.get(alloc, key)?)
}

/// What bytes under a key are, or that they are damaged.
pub fn or_damaged<T>(key: Key, bytes: Bytes, found: Option<T>) -> Result<T, ShelfFault>
    ensures { result ≡ or_damaged key bytes found }
{
    match found {
        Some(x) => Ok(x),
        None => Err(ShelfFault::Damaged { key, bytes }),
    }
}

/// The key of a leaf's sheet in a version.
fn leaf_key(leaf: LeafNo, version: u32) -> Key
    ensures { result ≡ key.Leaf leaf version }
{
    Key::Leaf { leaf, version }
}

/// The sheet of a leaf in a version.
///
/// # Errors
/// `Store` where the store fails; `Absent` where nothing stands under the key, `Damaged` where what stands there is no
/// sheet of the leaf; and want of memory.
pub fn read_sheet<B: Blobs>(
    alloc: Global,
    blobs: &mut B,
    index: &IndexSheet,
    leaf: LeafNo,
    version: u32,
) -> Result<LeafSheet, ShelfFault>
    requires tiles { AreTiles index.now.cells }
    requires leaf { leaf < length index.now.cells }
    ensures told { IfTold (B.store blobs.old).content (λ m. Answers result (sheet_at index.now m leaf version)) }
    ensures shows { ShowsSheet index.now leaf (key.Leaf leaf version) result }
    ensures rules { IfOk result KeepsSheetRules }
    ensures reads { Reads 1 (B.store blobs.old) (B.store blobs.new) }
    ensures once { (B.store blobs.new).gets ≡ next_count (B.store blobs.old).gets }
    ensures cause { TellsFailure ShelfFault.Store (B.store blobs.old).faults (B.store blobs.new).faults result }
{
    let Some(bytes) = get_bytes(alloc, blobs, leaf_key(leaf, version))? else {
        return Err(ShelfFault::Absent {
            key: leaf_key(leaf, version),
        });
    };
    let sheet = sheet_from(alloc, index, leaf, bytes.slice())?;
    or_damaged(leaf_key(leaf, version), bytes, sheet)
}
