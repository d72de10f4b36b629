//! Vertices and triangles, grouped by leaves.

ghost use Rattle.std.specs.Prelude.{◌≡◌, map, IfOk};
ghost use Rattle.std.specs.List.{flat_map};
ghost use Rattle.std.specs.List.Sorted.{IsStrictlyIncreasing};
ghost use Rattle.mesh_sheets.specs.Written.{patch_tris};
ghost use Rattle.write_back.specs.Homes.{AreByLeaf, at_corners, keeper_in, kept};

use crate::homes::{keeper_at, leaf_at};
use mesh_data::{Name, Tri};
use oemm_octree::LeafNo;
use sheet_data::Patch;
use std::alloc::{AllocError, Global};

/// The items by their leaves. Those of one leaf keep their order.
pub fn by_leaf<T>(items: Vec<(LeafNo, T)>) -> Result<Vec<(LeafNo, T)>, AllocError>
where
    T: Drop,
    ensures { IfOk result (λ groups. AreByLeaf items.items groups.items) }
{
    let mut groups = items;
    groups.sort_by_key(|x| x.0)?;
    Ok(groups)
}

/// The triangles of a patch with the leaves that keep them.
pub fn kept_tris(
    alloc: Global,
    homes: &[(Name, LeafNo)],
    none: LeafNo,
    patch: &Patch,
) -> Result<Vec<(LeafNo, Tri)>, AllocError>
    requires { IsStrictlyIncreasing (map (λ h. h.0) homes.now) }
    ensures { IfOk result (λ tris. tris.items ≡ kept homes.now none patch.now) }
{
    let mut tris = tagged_tris(alloc, homes, none, patch.whole.slice())?;
    for x in patch.mixed.slice() {
        tris.push((x.leaf, x.tri))?;
    }
    Ok(tris)
}

/// The triangles, each with the least leaf of its corners.
fn tagged_tris(
    alloc: Global,
    homes: &[(Name, LeafNo)],
    none: LeafNo,
    whole: &[Tri],
) -> Result<Vec<(LeafNo, Tri)>, AllocError>
    requires { IsStrictlyIncreasing (map (λ h. h.0) homes.now) }
    ensures { IfOk result (λ tris. tris.items ≡ map (λ t. (keeper_in homes.now none t, t)) whole.now) }
{
    let mut tris = Vec::new(alloc);
    for t in whole {
        tris.push((keeper_at(homes, none, t), *t))?;
    }
    Ok(tris)
}

/// The triangles of a patch.
fn all_tris(alloc: Global, patch: &Patch) -> Result<Vec<Tri>, AllocError>
    ensures { IfOk result (λ tris. tris.items ≡ patch_tris patch.now) }
{
    let mut tris = Vec::from_slice(alloc, patch.whole.slice())?;
    for x in patch.mixed.slice() {
        tris.push(x.tri)?;
    }
    Ok(tris)
}

/// The triangles of a patch with the leaf of each of their corners.
pub fn tris_at_corners(
    alloc: Global,
    homes: &[(Name, LeafNo)],
    none: LeafNo,
    patch: &Patch,
) -> Result<Vec<(LeafNo, Tri)>, AllocError>
    requires { IsStrictlyIncreasing (map (λ h. h.0) homes.now) }
    ensures { IfOk result (λ tris. tris.items ≡ flat_map (at_corners homes.now none) (patch_tris patch.now)) }
{
    let all = all_tris(alloc, patch)?;
    let mut tris = Vec::new(alloc);
    for t in &all {
        tris.extend_from_slice(&[
            (leaf_at(homes, none, t.a), *t),
            (leaf_at(homes, none, t.b), *t),
            (leaf_at(homes, none, t.c), *t),
        ])?;
    }
    Ok(tris)
}
