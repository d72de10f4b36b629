//! What keeps a list of triangles from being an oriented manifold.

ghost use Rattle.std.specs.Prelude.{◌≡◌, ◌==◌, ℕ, map, filter, IfOk, IfSome, IfNone, IsTrue, ◌↔◌};
ghost use Rattle.std.specs.List.{list_any, flat_map};
ghost use Rattle.std.specs.List.Sorted.{IsSorted, IsStrictlyIncreasing};
ghost use Rattle.mesh_data.specs.Manifold.{IsLeastTwice, IsEachEdgeOnce, IsLeastRingless, IsRinged};
ghost use Rattle.mesh_data.specs.Rings.{from_each_corner, IsRingOf};
ghost use Rattle.mesh_data.specs.declared.rings.Ring.{Ring};
ghost use Rattle.mesh_data.specs.Triangles.{tri_cmp};
ghost use Rattle.triangle_lists.specs.Audit.{first_pair, FindsShape};
ghost use Rattle.triangle_lists.specs.Links.{behind_all};

use crate::edge_sets::directed_list;
use crate::rings::find_ring;
use crate::turning::turned_on;
use mesh_data::{Edge, Name, Shape, Tri};
use std::alloc::{AllocError, Global};

/// The first edge that equals the next.
fn first_pair(edges: &[Edge]) -> Option<Edge>
    ensures { result ≡ first_pair edges.now }
{
    for i in 1..edges.len() {
        if edges[i - 1] == edges[i] {
            return Some(edges[i]);
        }
    }
    None
}

/// The least directed edge that two triangles have, if there is one.
pub(crate) fn least_twice(alloc: Global, tris: &[Tri]) -> Result<Option<Edge>, AllocError>
    ensures found { IfOk result (λ e. IfSome e (IsLeastTwice tris.now)) }
    ensures none { IfOk result (λ e. IfNone e (IsEachEdgeOnce tris.now)) }
{
    let mut edges = directed_list(alloc, tris)?;
    edges.sort_unstable();
    Ok(first_pair(edges.as_slice()))
}

/// Each triangle, turned to start at each of its corners.
pub(crate) fn corner_tris(alloc: Global, tris: &[Tri]) -> Result<Vec<Tri>, AllocError>
    ensures { IfOk result (λ turned. turned.items ≡ flat_map from_each_corner tris.now) }
{
    let mut turned = Vec::new(alloc);
    for t in tris {
        let second = turned_on(t);
        turned.extend_from_slice(&[*t, second, turned_on(&second)])?;
    }
    Ok(turned)
}

fn starts(alloc: Global, turned: &[Tri]) -> Result<Vec<Name>, AllocError>
    ensures { IfOk result (λ names. names.items ≡ map (λ t. t.a) turned.now) }
{
    turned.iter().map(|t| t.a).collect(alloc)
}

/// The first names of these triangles, each once and ascending.
fn first_names(alloc: Global, turned: &[Tri]) -> Result<Vec<Name>, AllocError>
    ensures ascending { IfOk result (λ names. IsStrictlyIncreasing names.items) }
    ensures members { IfOk result (λ names. (v : ℕ)
        → list_any (λ w. w == v) names.items ≡ list_any (λ t. t.a == v) turned.now) }
{
    let mut names = starts(alloc, turned)?;
    names.sort_unstable();
    names.dedup();
    Ok(names)
}

/// The sorted triangles that start at v.
pub(crate) fn starting_at(sorted: &[Tri], v: Name) -> &[Tri]
    requires { IsSorted tri_cmp sorted.now }
    ensures { result.now ≡ filter (λ t. t.a == v) sorted.now }
{
    let (_, rest) = sorted.split_at(sorted.partition_point(|t| t.a < v));
    let (group, _) = rest.split_at(rest.partition_point(|t| t.a <= v));
    group
}

/// The edges behind v of the sorted triangles that start at v.
fn sorted_link(alloc: Global, sorted: &[Tri], v: Name) -> Result<Vec<Edge>, AllocError>
    requires { IsSorted tri_cmp sorted.now }
    ensures { IfOk result (λ es. es.items ≡ behind_all v sorted.now) }
{
    starting_at(sorted, v)
        .iter()
        .map(|t| Edge { a: t.b, b: t.c })
        .collect(alloc)
}

/// Whether the edges behind v of the sorted triangles that start at v are the steps of a ring.
pub(crate) fn has_ring(alloc: Global, sorted: &[Tri], v: Name) -> Result<bool, AllocError>
    requires { IsSorted tri_cmp sorted.now }
    ensures { IfOk result (λ b. IsTrue b ↔ ((r : Ring) × IsRingOf (behind_all v sorted.now) r)) }
{
    let link = sorted_link(alloc, sorted, v)?;
    let found = find_ring(alloc, link.as_slice())?;
    Ok(found.is_some())
}

/// The least vertex that is in a triangle and has no ring, if there is one.
fn least_ringless(alloc: Global, tris: &[Tri]) -> Result<Option<Name>, AllocError>
    ensures found { IfOk result (λ v. IfSome v (IsLeastRingless tris.now)) }
    ensures none { IfOk result (λ v. IfNone v (IsRinged tris.now)) }
{
    let mut turned = corner_tris(alloc, tris)?;
    turned.sort_unstable();
    let names = first_names(alloc, turned.as_slice())?;
    for v in &names {
        if !has_ring(alloc, turned.as_slice(), *v)? {
            return Ok(Some(*v));
        }
    }
    Ok(None)
}

/// The least directed edge that two triangles have, else the least vertex that is in a triangle and has no
/// ring, if there is one. It takes time of about F log F for F triangles.
///
/// # Errors
/// Want of memory.
pub fn first_fault(alloc: Global, tris: &[Tri]) -> Result<Option<Shape>, AllocError>
    ensures { IfOk result (λ found. FindsShape tris.now found) }
{
    if let Some(edge) = least_twice(alloc, tris)? {
        return Ok(Some(Shape::Edge {
            a: edge.a,
            b: edge.b,
        }));
    }
    match least_ringless(alloc, tris)? {
        Some(v) => Ok(Some(Shape::Vertex { v })),
        None => Ok(None),
    }
}
