//! The planes of each vertex of a start mesh.

ghost use Rattle.std.specs.Prelude.{◌≡◌, ℕ, ◌<◌, [], ◌∷◌, ◌++◌, length, slice_index_or, slice_set, not, true, All, IfOk, OnOk};
ghost use Rattle.std.specs.List.{count_by};
ghost use Rattle.mesh_data.specs.Mesh.{plane_at, planes_at};
ghost use Rattle.mesh_data.specs.Triangles.{IsProper, IsBelow};
ghost use Rattle.plane_counts.specs.PlaneCounts.{is_bounded};

use mesh_data::{Name, Plane, Planes, Tri};
use oemm_lists::List;
use oemm_octree::Point;
use oemm_plane::plane_of;
use std::alloc::{AllocError, Global};

/// For each point, the planes of the triangles that have its place.
///
/// # Errors
/// Want of memory.
pub fn plane_lists(alloc: Global, points: &[Point], tris: &[Tri]) -> Result<Vec<Planes>, AllocError>
    requires proper { All IsProper tris.now }
    requires below { All (IsBelow (length points.now)) tris.now }
    ensures len { IfOk result (λ lists. length lists.items ≡ length points.now) }
    ensures planes { IfOk result (λ lists. (v : ℕ) → v < length points.now →
        slice_index_or lists.items v [] ≡ planes_at points.now tris.now v) }
    ensures bounded { IfOk result
        (λ lists. (v : ℕ) → count_by (λ l. not (is_bounded l)) (slice_index_or lists.items v []) ≡ 0) }
{
    let mut lists = empty_lists(alloc, points.len())?;
    for t in tris {
        let plane = plane_at(points, t);
        push_plane(&mut lists, t.a, plane)?;
        push_plane(&mut lists, t.b, plane)?;
        push_plane(&mut lists, t.c, plane)?;
    }
    Ok(lists)
}

/// The plane of a triangle of points.
fn plane_at(points: &[Point], t: &Tri) -> Plane
    requires { IsBelow (length points.now) t.now }
    ensures plane { result ≡ plane_at points.now t.now }
    ensures bounded { is_bounded result ≡ true }
{
    plane_of(
        &points[t.a.0 as usize],
        &points[t.b.0 as usize],
        &points[t.c.0 as usize],
    )
}

fn empty_lists(alloc: Global, count: usize) -> Result<Vec<Planes>, AllocError>
    ensures len { IfOk result (λ lists. length lists.items ≡ count) }
    ensures empty { IfOk result (λ lists. (v : ℕ) → slice_index_or lists.items v [] ≡ []) }
{
    let mut lists = Vec::with_capacity(alloc, count)?;
    for _place in 0..count {
        lists.push(List::new(alloc))?;
    }
    Ok(lists)
}

/// Puts a plane at the end of the list of a place.
fn push_plane(lists: &mut Vec<Planes>, v: Name, plane: Plane) -> Result<(), AllocError>
    requires { v < length lists.old.items }
    ensures { OnOk result
        (lists.new.items ≡ slice_set lists.old.items v (slice_index_or lists.old.items v [] ++ plane ∷ [])) }
{
    let list = &mut lists[v.0 as usize];
    list.add(plane)
}
