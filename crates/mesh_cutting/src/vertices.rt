//! The vertices of a sheet.

ghost use Rattle.std.specs.Prelude.{◌≡◌, ◌≤◌, ◌<◌, ◌^◌, ◌==◌, length, map, nat_abs, slice_index_or, IfOk};
ghost use Rattle.std.specs.List.{filter};
ghost use Rattle.std.specs.List.Sorted.{IsNonDecreasingBy};
ghost use Rattle.mesh_data.specs.Mesh.{origin, plane_at};
ghost use Rattle.mesh_data.specs.Planes.{most_planes, sums_of};
ghost use Rattle.mesh_data.specs.Quads.{sums_in};
ghost use Rattle.oemm_plane.specs.PlaneBounds.{IsNormalBounded};

use crate::runs::starting_at;
use mesh_data::{Name, Plane, Quad, Tri};
use oemm_octree::{LeafNo, Point};
use oemm_plane::{QuadSums, plane_of};
use sheet_data::{SheetVertex, SheetVertices};
use std::alloc::{AllocError, Global};

/// The point of a name, or the origin where none has it.
fn point_at(points: &[Point], v: Name) -> Point
    ensures { result ≡ slice_index_or points.now v origin }
{
    match points.get(v.0 as usize) {
        Some(p) => *p,
        None => Point { x: 0, y: 0, z: 0 },
    }
}

/// The plane of a triangle.
fn plane_at(points: &[Point], t: &Tri) -> Plane
    ensures plane { result ≡ plane_at points.now t.now }
    ensures normal { IsNormalBounded result }
    ensures offset { nat_abs result.d < 2 ^ 49 }
{
    plane_of(
        &point_at(points, t.a),
        &point_at(points, t.b),
        &point_at(points, t.c),
    )
}

/// The quadric of the planes of these triangles.
fn quad_of(points: &[Point], tris: &[(LeafNo, Tri)]) -> Quad
    requires { length tris.now ≤ most_planes }
    ensures { sums_in result ≡ sums_of (map (λ x. plane_at points.now x.1) tris.now) }
{
    let mut quad = Quad::zero();
    for (_, t) in tris {
        quad.add_plane(&plane_at(points, t));
    }
    quad
}

/// The vertices of these names, each with the planes of the triangles that start at it.
pub fn vertices_of(
    alloc: Global,
    points: &[Point],
    names: &[(LeafNo, Name)],
    corners: &[(LeafNo, Tri)],
) -> Result<SheetVertices, AllocError>
    requires sorted { IsNonDecreasingBy (λ x. x.1.a) corners.now }
    requires few { length corners.now ≤ most_planes }
    ensures { IfOk result (λ vertices. vertices ≡ map (λ x. record {
      name = x.1;
      point = slice_index_or points.now x.1 origin;
      quad = sums_of (map (λ y. plane_at points.now y.1) (filter (λ y. y.1.a == x.1) corners.now));
    }) names.now) }
{
    let mut vertices = SheetVertices::new(alloc);
    for (_, name) in names {
        let quad = quad_of(points, starting_at(corners, *name));
        let point = point_at(points, *name);
        vertices.add(SheetVertex {
            name: *name,
            point,
            quad,
        })?;
    }
    Ok(vertices)
}
