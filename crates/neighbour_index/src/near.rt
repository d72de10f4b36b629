//! Neighbours of a leaf, found by the names that share a face with one of the leaf's.

ghost use Rattle.std.specs.Prelude.{◌≡◌, ◌==◌, ◌&&◌, ℕ, filter, not, map, IfOk};
ghost use Rattle.std.specs.List.{flat_map, list_any};
ghost use Rattle.std.specs.List.Sorted.{IsNonDecreasing};
ghost use Rattle.mesh_data.specs.Triangles.{corners};
ghost use Rattle.oemm_lists.specs.Numbers.{among};
ghost use Rattle.oemm_octree.specs.Leaves.{is_one_of};
ghost use Rattle.neighbour_index.specs.Neighbours.{are_neighbours};

use crate::sets::set_of;
use mesh_data::{LeafNo, LeafSet, Name, Tri};
use std::alloc::{AllocError, Global};

/// Whether one of these names, which don't fall, is v.
fn has_name(names: &[Name], v: Name) -> bool
    requires { IsNonDecreasing names.now }
    ensures { result ≡ among v names.now }
{
    names.binary_search(&v).is_ok()
}

/// Whether a corner of the face is one of these names, which don't fall.
fn has_corner(names: &[Name], t: &Tri) -> bool
    requires { IsNonDecreasing names.now }
    ensures { result ≡ list_any (λ v. among v names.now) (corners t.now) }
{
    has_name(names, t.a) || has_name(names, t.b) || has_name(names, t.c)
}

/// The names that are listed in the leaf.
fn names_in(alloc: Global, homes: &[(Name, LeafNo)], leaf: LeafNo) -> Result<Vec<Name>, AllocError>
    ensures { IfOk result (λ names. names.items ≡ map (λ h. h.0) (filter (λ h. h.1 == leaf) homes.now)) }
{
    homes
        .iter()
        .copied()
        .filter(|h| h.1 == leaf)
        .map(|h| h.0)
        .collect(alloc)
}

/// The corners of the faces that have a corner of these names, which don't fall, as often as they come.
fn shared_with(alloc: Global, faces: &[Tri], names: &[Name]) -> Result<Vec<Name>, AllocError>
    requires { IsNonDecreasing names.now }
    ensures { IfOk result (λ shared. shared.items
        ≡ flat_map corners (filter (λ t. list_any (λ v. among v names.now) (corners t)) faces.now)) }
{
    let mut shared = Vec::new(alloc);
    for t in faces {
        if has_corner(names, t) {
            shared.extend_from_slice(&[t.a, t.b, t.c])?;
        }
    }
    Ok(shared)
}

/// The other leaves in which these names, which don't fall, are listed, as often as they come.
fn others_of(
    alloc: Global,
    leaf: LeafNo,
    homes: &[(Name, LeafNo)],
    names: &[Name],
) -> Result<Vec<LeafNo>, AllocError>
    requires { IsNonDecreasing names.now }
    ensures { IfOk result (λ leaves. leaves.items
        ≡ map (λ h. h.1) (filter (λ h. not (h.1 == leaf) && among h.0 names.now) homes.now)) }
{
    homes
        .iter()
        .copied()
        .filter(|h| h.1 != leaf && has_name(names, h.0))
        .map(|h| h.1)
        .collect(alloc)
}

/// The neighbours of a leaf by these faces, among the homes that are listed of their corners: the other leaves in
/// which a face has a corner that has one in this leaf too. A corner without a listed home is passed over. It takes
/// time of about (F + H) log (F + H) for F faces and H homes, in whatever order they come.
///
/// # Errors
/// Want of memory.
pub fn near_of(
    alloc: Global,
    leaf: LeafNo,
    faces: &[Tri],
    homes: &[(Name, LeafNo)],
) -> Result<LeafSet, AllocError>
    ensures { IfOk result (λ near. (other : ℕ)
        → is_one_of near other ≡ are_neighbours faces.now homes.now leaf other) }
{
    let mut own = names_in(alloc, homes, leaf)?;
    own.sort_unstable();
    let mut shared = shared_with(alloc, faces, own.as_slice())?;
    shared.sort_unstable();
    let near = others_of(alloc, leaf, homes, shared.as_slice())?;
    Ok(set_of(near))
}
