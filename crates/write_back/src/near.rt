//! The leaves that are near to one.

ghost use Rattle.std.specs.Prelude.{◌≡◌, ◌||◌, map, nat_lt, IfOk};
ghost use Rattle.std.specs.List.{filter, flat_map, range_with_len};
ghost use Rattle.std.specs.List.Sorted.{IsStrictlyIncreasing};
ghost use Rattle.oemm_octree.specs.Leaves.{is_one_of};
ghost use Rattle.neighbour_index.specs.Neighbours.{are_neighbours};
ghost use Rattle.write_back.specs.Homes.{with_homes};

use crate::homes::leaf_at;
use mesh_cutting::tris_of;
use mesh_data::{Name, Tri};
use neighbour_index::{join_near, near_of};
use oemm_lists::List;
use oemm_octree::{LeafNo, LeafSet};
use std::alloc::{AllocError, Global};

/// The corners of the triangles with their leaves.
fn listed_homes(
    alloc: Global,
    homes: &[(Name, LeafNo)],
    none: LeafNo,
    tris: &[Tri],
) -> Result<Vec<(Name, LeafNo)>, AllocError>
    requires { IsStrictlyIncreasing (map (λ h. h.0) homes.now) }
    ensures { IfOk result (λ listed. listed.items ≡ flat_map (with_homes homes.now none) tris.now) }
{
    let mut listed = Vec::new(alloc);
    for t in tris {
        listed.extend_from_slice(&[
            (t.a, leaf_at(homes, none, t.a)),
            (t.b, leaf_at(homes, none, t.b)),
            (t.c, leaf_at(homes, none, t.c)),
        ])?;
    }
    Ok(listed)
}

/// Those of the leaves that lie below another.
fn lower_of(alloc: Global, leaves: &[LeafNo], none: LeafNo) -> Result<Vec<LeafNo>, AllocError>
    ensures { IfOk result (λ lower. lower.items ≡ filter (λ l. nat_lt l none) leaves.now) }
{
    leaves.iter().copied().filter(|l| *l < none).collect(alloc)
}

/// The leaves below none that are listed outside, or are neighbours of the leaf by the triangles from its corners.
pub fn near_at(
    alloc: Global,
    homes: &[(Name, LeafNo)],
    none: LeafNo,
    leaf: LeafNo,
    own: &[(LeafNo, Tri)],
    outside: &LeafSet,
) -> Result<LeafSet, AllocError>
    requires { IsStrictlyIncreasing (map (λ h. h.0) homes.now) }
    ensures { IfOk result (λ near. near ≡ filter (λ l. is_one_of outside.now l
        || are_neighbours (map (λ x. x.1) own.now) (flat_map (with_homes homes.now none) (map (λ x. x.1) own.now)) leaf l)
        (range_with_len 0 none)) }
{
    let tris = tris_of(alloc, own)?;
    let faces = tris.as_slice();
    let listed = listed_homes(alloc, homes, none, faces)?;
    let inside = near_of(alloc, leaf, faces, listed.as_slice())?;
    let near = join_near(alloc, outside, &inside)?;
    let lower = lower_of(alloc, near.slice(), none)?;
    Ok(LeafSet::of(List::from_vec(lower)))
}
