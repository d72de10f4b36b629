//! What keeps a list of triangles from being an oriented manifold at the vertices that are held.

ghost use Rattle.std.specs.Prelude.{◌≡◌, ◌==◌, IfOk, IfSome, IfNone};
ghost use Rattle.std.specs.List.{list_any};
ghost use Rattle.std.specs.List.Sorted.{IsSorted};
ghost use Rattle.mesh_data.specs.Triangles.{tri_cmp};
ghost use Rattle.triangle_lists.specs.HeldAudit.{AreHeldRinged, FindsHeldShape, IsLeastHeldRingless};

use crate::audit::{corner_tris, has_ring, least_twice, starting_at};
use mesh_data::{Name, NameSet, Shape, Tri};
use std::alloc::{AllocError, Global};

/// Whether some of the sorted triangles starts at v.
fn has_start(sorted: &[Tri], v: Name) -> bool
    requires { IsSorted tri_cmp sorted.now }
    ensures { result ≡ list_any (λ t. t.a == v) sorted.now }
{
    !starting_at(sorted, v).is_empty()
}

/// The least held vertex that is in a triangle and has no ring, if there is one.
fn least_held_ringless(
    alloc: Global,
    tris: &[Tri],
    held: &NameSet,
) -> Result<Option<Name>, AllocError>
    ensures found { IfOk result (λ v. IfSome v (IsLeastHeldRingless tris.now held.now)) }
    ensures none { IfOk result (λ v. IfNone v (AreHeldRinged tris.now held.now)) }
{
    let mut turned = corner_tris(alloc, tris)?;
    turned.sort_unstable();
    for v in held.slice() {
        if has_start(turned.as_slice(), *v) && !has_ring(alloc, turned.as_slice(), *v)? {
            return Ok(Some(*v));
        }
    }
    Ok(None)
}

/// The least directed edge that two triangles have, else the least held vertex that is in a triangle and has no ring, if
/// there is one. It takes time of about (F + H) log F for F triangles and H held vertices.
///
/// # Errors
/// Want of memory.
pub fn first_held_fault(
    alloc: Global,
    tris: &[Tri],
    held: &NameSet,
) -> Result<Option<Shape>, AllocError>
    ensures { IfOk result (λ found. FindsHeldShape tris.now held.now found) }
{
    if let Some(edge) = least_twice(alloc, tris)? {
        return Ok(Some(Shape::Edge {
            a: edge.a,
            b: edge.b,
        }));
    }
    match least_held_ringless(alloc, tris, held)? {
        Some(v) => Ok(Some(Shape::Vertex { v })),
        None => Ok(None),
    }
}
