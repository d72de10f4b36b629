//! The leaves that are near to one.

ghost use Rattle.std.specs.Prelude.{◌≡◌, ℕ, map, IfOk};
ghost use Rattle.std.specs.List.{flat_map};
ghost use Rattle.std.specs.List.Sorted.{IsStrictlyIncreasing};
ghost use Rattle.oemm_octree.specs.Leaves.{is_one_of};
ghost use Rattle.neighbour_index.specs.Neighbours.{are_neighbours};
ghost use Rattle.mesh_cutting.specs.Cuts.{listed_at};

use crate::grouping::leaf_at;
use mesh_data::{Name, Tri};
use neighbour_index::near_of;
use oemm_octree::{LeafNo, LeafSet};
use std::alloc::{AllocError, Global};

/// The corners of the triangles, each with its leaf.
fn listed_homes(
    alloc: Global,
    homes: &[LeafNo],
    none: LeafNo,
    tris: &[Tri],
) -> Result<Vec<(Name, LeafNo)>, AllocError>
    ensures { IfOk result (λ listed. listed.items
        ≡ flat_map (listed_at homes.now none) tris.now) }
{
    let mut listed = Vec::new(alloc);
    for t in tris {
        listed.extend_from_slice(&[
            (t.a, leaf_at(homes, none, t.a)),
            (t.b, leaf_at(homes, none, t.b)),
            (t.c, leaf_at(homes, none, t.c)),
        ])?;
    }
    Ok(listed)
}

/// The other leaves in which a triangle has a corner that has one in this leaf too, by the triangles from the corners
/// in this leaf.
pub fn near_at(
    alloc: Global,
    homes: &[LeafNo],
    none: LeafNo,
    leaf: LeafNo,
    own: &[(LeafNo, Tri)],
) -> Result<LeafSet, AllocError>
    ensures ascending { IfOk result IsStrictlyIncreasing }
    ensures members { IfOk result (λ near. (other : ℕ) → is_one_of near other ≡ are_neighbours (map (λ x. x.1) own.now)
        (flat_map (listed_at homes.now none) (map (λ x. x.1) own.now)) leaf other) }
{
    let tris = tris_of(alloc, own)?;
    let listed = listed_homes(alloc, homes, none, tris.as_slice())?;
    let near = near_of(alloc, leaf, tris.as_slice(), listed.as_slice())?;
    near.slice();
    Ok(near)
}

/// The triangles without their leaves.
pub fn tris_of(alloc: Global, tagged: &[(LeafNo, Tri)]) -> Result<Vec<Tri>, AllocError>
    ensures { IfOk result (λ tris. tris.items ≡ map (λ x. x.1) tagged.now) }
{
    tagged.iter().map(|x| x.1).collect(alloc)
}
