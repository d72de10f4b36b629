//! The triangles round a name, and which of them a collapse folds.

ghost use Rattle.std.specs.Prelude.{◌≡◌, IfOk};
ghost use Rattle.std.specs.List.{find};
ghost use Rattle.mesh_data.specs.Rings.{path_edges, ring_path};
ghost use Rattle.oemm_plane.specs.PlaneBounds.{IsNormalBounded};
ghost use Rattle.mesh_edits.specs.Rounds.{folds_by, plane_by, round};

use crate::vertices::PatchVertices;
use half_edge::Ring;
use mesh_data::{Name, Plane, Tri};
use oemm_plane::{folds, plane_of};
use std::alloc::{AllocError, Global};
use triangle_edits::{has_corner, substituted};
use triangle_lists::turned_tri;

/// The names of a ring, and of a closed one the first of them again.
pub(crate) fn path_of(alloc: Global, ring: &Ring) -> Result<Vec<Name>, AllocError>
    ensures { IfOk result
        (λ path. path.items ≡ ring_path (record { names = ring.now.names; closed = ring.now.closed })) }
{
    let names = ring.names.slice();
    let mut path = Vec::from_slice(alloc, names)?;
    if ring.closed {
        if let Some(first) = names.first() {
            path.push(*first)?;
        }
    }
    Ok(path)
}

/// The triangles of a name and each step of a path.
pub(crate) fn round(alloc: Global, u: Name, path: &[Name]) -> Result<Vec<Tri>, AllocError>
    ensures { IfOk result (λ tris. tris.items ≡ round u (path_edges path.now)) }
{
    let mut tris = Vec::new(alloc);
    let mut left = path;
    while let [x, rest @ ..] = left {
        if let Some(y) = rest.first() {
            tris.push(turned_tri(&Tri { a: u, b: *x, c: *y }))?;
        }
        left = rest;
    }
    Ok(tris)
}

/// The plane in which a triangle lies.
fn plane_by(vertices: &PatchVertices, t: &Tri) -> Plane
    ensures plane { result ≡ plane_by vertices.now t.now }
    ensures normal { IsNormalBounded result }
{
    plane_of(
        &vertices.place_of(t.a),
        &vertices.place_of(t.b),
        &vertices.place_of(t.c),
    )
}

/// Whether the triangle has `u` and not `v`, and folds where `v` is put for `u`.
fn folds_by(vertices: &PatchVertices, u: Name, v: Name, t: &Tri) -> bool
    ensures { result ≡ folds_by vertices.now u v t.now }
{
    has_corner(u, t)
        && !has_corner(v, t)
        && folds(
            &plane_by(vertices, t),
            &plane_by(vertices, &substituted(u, v, t)),
        )
}

/// The first of the triangles that folds where `v` is put for `u`.
pub(crate) fn first_folding(vertices: &PatchVertices, tris: &[Tri], u: Name, v: Name) -> Option<Tri>
    ensures { result ≡ find (folds_by vertices.now u v) tris.now }
{
    tris.iter().copied().find(|t| folds_by(vertices, u, v, t))
}
