//! Names and triangles, grouped by leaves.

ghost use Rattle.std.specs.Prelude.{◌≡◌, ◌≤◌, ◌++◌, length, map, IfOk, OnOk, min};
ghost use Rattle.std.specs.List.{flat_map, range_with_len};
ghost use Rattle.std.specs.List.Sorted.{IsSorted};
ghost use Rattle.std.specs.Prelude.{slice_index_or};
ghost use Rattle.oemm_limits.specs.declared.TheConstants.{MOST_ITEMS};
ghost use Rattle.oemm_octree.specs.Leaves.{AreTiles, home};
ghost use Rattle.mesh_data.specs.Rings.{from_each_corner};
ghost use Rattle.mesh_data.specs.Triangles.{tri_cmp};
ghost use Rattle.mesh_cutting.specs.Cuts.{AreGrouped, corner_tris, tagged};

use mesh_data::{Name, Tri};
use oemm_octree::{Cells, LeafNo, Point, home_of};
use std::alloc::{AllocError, Global};

/// The homes of the points.
pub fn homes_of(alloc: Global, cells: &Cells, points: &[Point]) -> Result<Vec<LeafNo>, AllocError>
    requires { AreTiles cells.now }
    ensures { IfOk result (λ homes. homes.items ≡ map (home cells.now) points.now) }
{
    points.iter().map(|p| home_of(cells, *p)).collect(alloc)
}

/// The leaf of a name by the homes of the points, and another one where no point has the name.
pub fn leaf_at(homes: &[LeafNo], none: LeafNo, v: Name) -> LeafNo
    ensures { result ≡ slice_index_or homes.now v none }
{
    match homes.get(v.0 as usize) {
        Some(leaf) => *leaf,
        None => none,
    }
}

/// The least leaf of the corners of a triangle.
fn keeper_at(homes: &[LeafNo], none: LeafNo, t: &Tri) -> LeafNo
    ensures { result ≡ min (slice_index_or homes.now t.now.a none)
        (min (slice_index_or homes.now t.now.b none) (slice_index_or homes.now t.now.c none)) }
{
    let a = leaf_at(homes, none, t.a);
    let b = leaf_at(homes, none, t.b);
    let c = leaf_at(homes, none, t.c);
    a.min(b.min(c))
}

/// The names of the points, each with its leaf.
fn tagged_names(
    alloc: Global,
    homes: &[LeafNo],
    none: LeafNo,
) -> Result<Vec<(LeafNo, Name)>, AllocError>
    requires { length homes.now ≤ MOST_ITEMS }
    ensures { IfOk result (λ names. names.items
        ≡ tagged (λ v. slice_index_or homes.now v none) (range_with_len 0 (length homes.now))) }
{
    let mut names = Vec::with_capacity(alloc, homes.len())?;
    for place in 0..homes.len() {
        let v = Name(place as u32);
        names.push((leaf_at(homes, none, v), v))?;
    }
    Ok(names)
}

/// The triangles, each with the leaf that keeps it.
fn tagged_tris(
    alloc: Global,
    homes: &[LeafNo],
    none: LeafNo,
    tris: &[Tri],
) -> Result<Vec<(LeafNo, Tri)>, AllocError>
    ensures { IfOk result (λ kept. kept.items ≡ tagged (λ t. min (slice_index_or homes.now t.a none)
        (min (slice_index_or homes.now t.b none) (slice_index_or homes.now t.c none))) tris.now) }
{
    tris.iter()
        .map(|t| (keeper_at(homes, none, t), *t))
        .collect(alloc)
}

/// The triangles from each corner, each with the leaf of that corner.
fn tagged_corners(
    alloc: Global,
    homes: &[LeafNo],
    none: LeafNo,
    tris: &[Tri],
) -> Result<Vec<(LeafNo, Tri)>, AllocError>
    ensures { IfOk result (λ corners. corners.items
        ≡ flat_map (λ t. tagged (λ s. slice_index_or homes.now s.a none) (from_each_corner t)) tris.now) }
{
    let mut corners = Vec::new(alloc);
    for t in tris {
        let Tri { a, b, c } = *t;
        corners.extend_from_slice(&[
            (leaf_at(homes, none, a), *t),
            (leaf_at(homes, none, b), Tri { a: b, b: c, c: a }),
            (leaf_at(homes, none, c), Tri { a: c, b: a, c: b }),
        ])?;
    }
    Ok(corners)
}

/// The names of the points by their leaves.
pub fn names_by_leaf(
    alloc: Global,
    homes: &[LeafNo],
    none: LeafNo,
) -> Result<Vec<(LeafNo, Name)>, AllocError>
    requires { length homes.now ≤ MOST_ITEMS }
    ensures { IfOk result (λ names. AreGrouped (λ v. slice_index_or homes.now v none)
        (range_with_len 0 (length homes.now)) names.items) }
{
    let mut names = tagged_names(alloc, homes, none)?;
    names.sort_unstable_by_key(|x| (x.0, x.1));
    Ok(names)
}

/// The triangles by the leaves that keep them.
pub fn tris_by_keeper(
    alloc: Global,
    homes: &[LeafNo],
    none: LeafNo,
    tris: &[Tri],
) -> Result<Vec<(LeafNo, Tri)>, AllocError>
    requires { IsSorted tri_cmp tris.now }
    ensures { IfOk result (λ kept. AreGrouped (λ t. min (slice_index_or homes.now t.a none)
        (min (slice_index_or homes.now t.b none) (slice_index_or homes.now t.c none))) tris.now kept.items) }
{
    let mut kept = tagged_tris(alloc, homes, none, tris)?;
    kept.sort_unstable_by_key(|x| (x.0, x.1));
    Ok(kept)
}

/// The triangles from each corner, by the leaf of that corner.
pub fn corners_by_leaf(
    alloc: Global,
    homes: &[LeafNo],
    none: LeafNo,
    tris: &[Tri],
) -> Result<Vec<(LeafNo, Tri)>, AllocError>
    ensures { IfOk result (λ corners. AreGrouped (λ t. slice_index_or homes.now t.a none)
        (corner_tris tris.now) corners.items) }
{
    let mut corners = tagged_corners(alloc, homes, none, tris)?;
    corners.sort_unstable_by_key(|x| (x.0, x.1));
    Ok(corners)
}
