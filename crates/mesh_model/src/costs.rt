//! What a collapse costs, and which triangles it folds.

ghost use Rattle.std.specs.Prelude.{◌≡◌, ◌≢◌, ◌≤◌, length};
ghost use Rattle.std.specs.List.{find};
ghost use Rattle.mesh_data.specs.Edits.{plane_in, folds_with, cost};
ghost use Rattle.mesh_data.specs.Planes.{sums_of, most_planes};
ghost use Rattle.mesh_data.specs.Quads.{sums_in};
ghost use Rattle.plane_counts.specs.PlaneCounts.{large_of};
ghost use Rattle.oemm_plane.specs.PlaneBounds.{IsNormalBounded};

use crate::plain_mesh::PlainMesh;
use mesh_data::{Name, Plane, Quad, Tri};
use oemm_plane::{QuadSums, folds, plane_of};
use triangle_edits::{has_corner, substituted};

/// The quadric of planes of triangles of the grid.
fn quad_of(planes: &[Plane]) -> Quad
    requires few { length planes.now ≤ most_planes }
    requires bounded { large_of planes.now ≡ 0 }
    ensures { sums_in result ≡ sums_of planes.now }
{
    let mut quad = Quad::zero();
    for plane in planes {
        quad.add_plane(plane);
    }
    quad
}

impl PlainMesh {
    /// The plane in which a triangle lies.
    fn plane_in(&self, t: &Tri) -> Plane
        ensures plane { result ≡ plane_in self.now t.now }
        ensures normal { IsNormalBounded result }
    {
        plane_of(
            &self.vertices.point_or_origin(t.a),
            &self.vertices.point_or_origin(t.b),
            &self.vertices.point_or_origin(t.c),
        )
    }

    /// Whether the triangle has `u` and not `v`, and folds where `v` is put for `u`.
    fn folds_with(&self, u: Name, v: Name, t: &Tri) -> bool
        ensures { result ≡ folds_with self.now u v t.now }
    {
        has_corner(u, t)
            && !has_corner(v, t)
            && folds(&self.plane_in(t), &self.plane_in(&substituted(u, v, t)))
    }

    /// The least triangle that folds where `v` is put for `u`.
    pub(crate) fn first_folding(&self, u: Name, v: Name) -> Option<Tri>
        ensures { result ≡ find (folds_with self.now u v) self.now.tris }
    {
        self.tris.iter().copied().find(|t| self.folds_with(u, v, t))
    }

    /// What it costs to put `v` for `u`: the quadrics of both at the point of `v` (Garland and Heckbert, 1997).
    pub(crate) fn cost(&self, u: Name, v: Name) -> i128
        requires { u ≢ v }
        ensures { result ≡ cost self.now u v }
    {
        let mut quad = quad_of(self.vertices.planes_or_none(u));
        quad.merge(&quad_of(self.vertices.planes_or_none(v)));
        quad.value_at(&self.vertices.point_or_origin(v))
    }
}
