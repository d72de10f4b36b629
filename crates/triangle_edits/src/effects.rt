//! The lists of triangles that a collapse and a flip leave.

ghost use Rattle.std.specs.Prelude.{◌≡◌, ◌≤◌, ◌==◌, not, map, filter, length, IfOk};
ghost use Rattle.mesh_data.specs.Edits.{renamed, substituted, collapsed_tris, flipped_tris};
ghost use Rattle.mesh_data.specs.Links.{has_both};

use crate::lookups::has_both;
use mesh_data::{Name, Tri};
use std::alloc::{AllocError, Global};
use triangle_lists::{turned_in_order, turned_tri};

/// v in the place of u.
fn renamed(u: Name, v: Name, w: Name) -> Name
    ensures { result ≡ renamed u v w }
{
    if w == u { v } else { w }
}

/// The triangle with v in the place of u, if it has u.
pub fn substituted(u: Name, v: Name, t: &Tri) -> Tri
    ensures { result ≡ substituted u v t.now }
{
    Tri {
        a: renamed(u, v, t.a),
        b: renamed(u, v, t.b),
        c: renamed(u, v, t.c),
    }
}

/// The triangles that don't have both names.
fn without_both(alloc: Global, tris: &[Tri], u: Name, v: Name) -> Result<Vec<Tri>, AllocError>
    ensures kept { IfOk result (λ kept. kept.items ≡ filter (λ t. not (has_both u v t)) tris.now) }
    ensures few { IfOk result (λ kept. length kept.items ≤ length tris.now) }
{
    tris.iter()
        .copied()
        .filter(|t| !has_both(u, v, t))
        .collect(alloc)
}

/// The triangles with v in the place of u.
fn put_in_all(alloc: Global, tris: &[Tri], u: Name, v: Name) -> Result<Vec<Tri>, AllocError>
    ensures { IfOk result (λ put. put.items ≡ map (substituted u v) tris.now) }
{
    tris.iter().map(|t| substituted(u, v, t)).collect(alloc)
}

/// The triangles that the half-edge collapse of u onto v leaves (a contraction of Garland and Heckbert, 1997, onto one
/// end of the edge): those without both names, with v for u, turned and in order. It takes time of about F log F for F
/// triangles.
///
/// # Errors
/// Want of memory.
pub fn collapsed_tris(alloc: Global, tris: &[Tri], u: Name, v: Name) -> Result<Vec<Tri>, AllocError>
    ensures tris { IfOk result (λ ts. ts.items ≡ collapsed_tris u v tris.now) }
    ensures few { IfOk result (λ ts. length ts.items ≤ length tris.now) }
{
    let kept = without_both(alloc, tris, u, v)?;
    let put = put_in_all(alloc, kept.as_slice(), u, v)?;
    turned_in_order(alloc, put.as_slice())
}

/// The triangles that an edge flip leaves (Lawson, 1977), from the edge of a and b to that of c and d, in order: those
/// that have a and b give way to (a, d, c) and (d, b, c). It takes time of about F log F for F triangles.
///
/// # Errors
/// Want of memory.
pub fn flipped_tris(
    alloc: Global,
    tris: &[Tri],
    a: Name,
    b: Name,
    c: Name,
    d: Name,
) -> Result<Vec<Tri>, AllocError>
    ensures { IfOk result (λ ts. ts.items ≡ flipped_tris a b c d tris.now) }
{
    let kept = without_both(alloc, tris, a, b)?;
    let at_a = turned_tri(&Tri { a, b: d, c });
    let at_b = turned_tri(&Tri { a: d, b, c });
    let mut flipped = Vec::from_slice(alloc, &[at_a, at_b])?;
    flipped.extend_from_slice(kept.as_slice())?;
    flipped.sort_unstable();
    Ok(flipped)
}
