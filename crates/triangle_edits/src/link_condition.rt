//! What the link condition asks: shared neighbours, and rings of three names.

ghost use Rattle.std.specs.Prelude.{◌≡◌, ◌==◌, ◌&&◌, ◌||◌, [], ◌∷◌, ◌++◌, not, filter, length, IfOk, OnOk};
ghost use Rattle.std.specs.List.{list_any, find};
ghost use Rattle.std.specs.List.Sorted.{IsPermutation, IsSorted};
ghost use Rattle.std.specs.Ordering.{nat_cmp};
ghost use Rattle.mesh_data.specs.Links.{is_name, link_violation, is_closed_by_three};
ghost use Rattle.mesh_data.specs.Triangles.{corners, neighbours};
ghost use Rattle.triangle_edits.specs.Links.{is_shared};

use crate::lookups::{apex, has_corner};
use mesh_data::{Name, Ring, Tri};
use std::alloc::{AllocError, Global};
use triangle_lists::{find_ring, link_of};

/// Puts the triangle's names other than v at the end.
fn push_others(names: &mut Vec<Name>, v: Name, t: &Tri) -> Result<(), AllocError>
    ensures { OnOk result (names.new.items ≡ names.old.items ++ filter (λ w. not (w == v)) (corners t.now)) }
{
    if t.a != v {
        names.push(t.a)?;
    }
    if t.b != v {
        names.push(t.b)?;
    }
    if t.c != v {
        names.push(t.c)?;
    }
    Ok(())
}

/// Puts the triangle's other names at the end, if it has v.
fn push_neighbours(names: &mut Vec<Name>, v: Name, t: &Tri) -> Result<(), AllocError>
    ensures { OnOk result (names.new.items ≡ names.old.items ++ neighbours v (t.now ∷ [])) }
{
    if has_corner(v, t) {
        push_others(names, v, t)?;
    }
    Ok(())
}

/// The other names of the triangles that have v, as often as they come.
fn neighbours(alloc: Global, tris: &[Tri], v: Name) -> Result<Vec<Name>, AllocError>
    ensures { IfOk result (λ names. names.items ≡ neighbours v tris.now) }
{
    let mut names = Vec::new(alloc);
    for t in tris {
        push_neighbours(&mut names, v, t)?;
    }
    Ok(names)
}

/// The neighbours of v, ascending.
fn sorted_neighbours(alloc: Global, tris: &[Tri], v: Name) -> Result<Vec<Name>, AllocError>
    ensures ascending { IfOk result (λ names. IsSorted nat_cmp names.items) }
    ensures permutation { IfOk result (λ names. IsPermutation (neighbours v tris.now) names.items) }
{
    let mut names = neighbours(alloc, tris, v)?;
    names.sort_unstable();
    Ok(names)
}

/// Whether one of these ascending names is w.
fn has_name(sorted: &[Name], w: Name) -> bool
    requires { IsSorted nat_cmp sorted.now }
    ensures { result ≡ list_any (λ x. x == w) sorted.now }
{
    sorted.binary_search(&w).is_ok()
}

/// Whether there is a name, and it is this one.
fn is_name(name: Option<Name>, w: Name) -> bool
    ensures { result ≡ is_name name w }
{
    name == Some(w)
}

/// Whether w is one of these ascending names, and neither of the two that may stand opposite.
fn is_shared(sorted: &[Name], one: Option<Name>, other: Option<Name>, w: Name) -> bool
    requires { IsSorted nat_cmp sorted.now }
    ensures { result ≡ is_shared sorted.now one other w }
{
    has_name(sorted, w) && !(is_name(one, w) || is_name(other, w))
}

/// The first of these names that is one of the ascending ones, and neither of the two that may stand opposite.
fn first_shared(
    names: &[Name],
    sorted: &[Name],
    one: Option<Name>,
    other: Option<Name>,
) -> Option<Name>
    requires { IsSorted nat_cmp sorted.now }
    ensures { result ≡ find (is_shared sorted.now one other) names.now }
{
    names
        .iter()
        .copied()
        .find(|w| is_shared(sorted, one, other, *w))
}

/// The least name that violates the link condition of the edge of u and v, Lk u ∩ Lk v = Lk uv (Dey, Edelsbrunner, Guha
/// and Nekhayev, 1999), if one does: a neighbour of u that is one of v too and doesn't lie opposite of their edge. It
/// takes time of about F + k log k for F triangles, of which k have u or v.
///
/// # Errors
/// Want of memory.
pub fn link_violation(
    alloc: Global,
    tris: &[Tri],
    u: Name,
    v: Name,
) -> Result<Option<Name>, AllocError>
    ensures { IfOk result (λ w. w ≡ link_violation tris.now u v) }
{
    let of_u = sorted_neighbours(alloc, tris, u)?;
    let of_v = sorted_neighbours(alloc, tris, v)?;
    let ahead = apex(tris, u, v);
    let behind = apex(tris, v, u);
    Ok(first_shared(of_u.as_slice(), of_v.as_slice(), ahead, behind))
}

/// Whether the ring is closed and has three names.
fn is_closed_of_three(ring: &Ring) -> bool
    ensures { result ≡ (ring.now.closed && length ring.now.names == 3) }
{
    ring.closed && ring.names.len() == 3
}

/// Whether v has a closed ring of three names. It takes time of about F + k log k for F triangles, of which
/// k have v.
///
/// # Errors
/// Want of memory.
pub fn is_closed_by_three(alloc: Global, tris: &[Tri], v: Name) -> Result<bool, AllocError>
    ensures { IfOk result (λ b. b ≡ is_closed_by_three tris.now v) }
{
    let link = link_of(alloc, tris, v)?;
    match find_ring(alloc, link.as_slice())? {
        Some(ring) => Ok(is_closed_of_three(&ring)),
        None => Ok(false),
    }
}
