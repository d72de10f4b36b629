//! The faces of a core's sheets and of those round it.

ghost use Rattle.std.specs.Prelude.{◌≡◌, ◌++◌, ◌&&◌, not, map, IfOk, OnOk};
ghost use Rattle.std.specs.List.{filter, flat_map, list_all, list_any};
ghost use Rattle.oemm_lists.specs.Ascending.{in_order};
ghost use Rattle.oemm_octree.specs.Leaves.{is_one_of};
ghost use Rattle.mesh_data.specs.Triangles.{corners};
ghost use Rattle.mesh_sheets.specs.Assembled.{faces_of, mixed_cmp};

use crate::members::has_name;
use mesh_data::{List, NameSet, Tri, Tris};
use sheet_data::{LeafSheet, Mixed, Mixeds};
use std::alloc::{AllocError, Global};

/// Puts the faces of a sheet at the end, each with the sheet's leaf.
fn add_faces(out: &mut Vec<Mixed>, sheet: &LeafSheet) -> Result<(), AllocError>
    ensures { OnOk result (out.new.items ≡ out.old.items ++ faces_of sheet.now) }
{
    let leaf = sheet.leaf;
    for tri in sheet.faces.slice() {
        out.push(Mixed { leaf, tri: *tri })?;
    }
    Ok(())
}

/// Puts the faces of the sheets at the end, one sheet after another.
fn add_all(out: &mut Vec<Mixed>, sheets: &[LeafSheet]) -> Result<(), AllocError>
    ensures { OnOk result (out.new.items ≡ out.old.items ++ flat_map faces_of sheets.now) }
{
    for sheet in sheets {
        add_faces(out, sheet)?;
    }
    Ok(())
}

/// The faces of all sheets, each with the leaf of its sheet, in order.
pub fn gathered(
    alloc: Global,
    inner: &[LeafSheet],
    outer: &[LeafSheet],
) -> Result<Vec<Mixed>, AllocError>
    ensures { IfOk result
        (λ kept. kept.items ≡ in_order mixed_cmp (flat_map faces_of (inner.now ++ outer.now))) }
{
    let mut kept = Vec::new(alloc);
    add_all(&mut kept, inner)?;
    add_all(&mut kept, outer)?;
    kept.sort_unstable_by_key(|x| (x.tri, x.leaf));
    Ok(kept)
}

/// Whether each corner of the triangle is held.
fn is_whole(held: &NameSet, t: &Tri) -> bool
    ensures { result ≡ list_all (is_one_of held.now) (corners t.now) }
{
    has_name(held, t.a) && has_name(held, t.b) && has_name(held, t.c)
}

/// Whether some corner of the triangle is held.
fn touches(held: &NameSet, t: &Tri) -> bool
    ensures { result ≡ list_any (is_one_of held.now) (corners t.now) }
{
    has_name(held, t.a) || has_name(held, t.b) || has_name(held, t.c)
}

/// Those of the triangles of which each corner is held.
pub fn whole_of(alloc: Global, held: &NameSet, kept: &[Mixed]) -> Result<Tris, AllocError>
    ensures { IfOk result (λ whole. whole
        ≡ map (λ x. x.tri) (filter (λ x. list_all (is_one_of held.now) (corners x.tri)) kept.now)) }
{
    let whole = kept
        .iter()
        .copied()
        .filter(|x| is_whole(held, &x.tri))
        .map(|x| x.tri)
        .collect(alloc)?;
    Ok(List::from_vec(whole))
}

/// Those of the triangles of which some corner is held and some isn't.
pub fn mixed_of(alloc: Global, held: &NameSet, kept: &[Mixed]) -> Result<Mixeds, AllocError>
    ensures { IfOk result (λ mixed. mixed
        ≡ filter (λ x. list_any (is_one_of held.now) (corners x.tri)
        && not (list_all (is_one_of held.now) (corners x.tri))) kept.now) }
{
    let mixed = kept
        .iter()
        .copied()
        .filter(|x| touches(held, &x.tri) && !is_whole(held, &x.tri))
        .collect(alloc)?;
    Ok(List::from_vec(mixed))
}
