//! A whole mesh in memory.

ghost use Rattle.std.specs.Prelude.{◌≡◌, ◌≤◌, ◌<◌, ◌^◌, ◌*◌, length, nat_abs, All, IfOk};
ghost use Rattle.std.specs.List.Sorted.{IsSorted};
ghost use Rattle.std.specs.FinMap as finite;
ghost use Rattle.std.specs.Option.{option_copied};
ghost use Rattle.mesh_data.specs.Manifold.{IsTriangleOf, IsEachEdgeOnce, IsRinged, Audits};
ghost use Rattle.mesh_data.specs.Mesh.{start, point_of, planes_of, names_of, points_of, euler, euler2, border};
ghost use Rattle.mesh_data.specs.Triangles.{IsProper, IsBelow, tri_cmp};

use crate::plane_lists::plane_lists;
use crate::vertex_map::VertexMap;
use mesh_data::{Audit, Edges, Name, NameSet, Planes, Tri, Tris};
use oemm_limits::MOST_ITEMS;
use oemm_lists::{Copied, List};
use oemm_octree::{Point, Points};
use std::alloc::{AllocError, Global};
use std::marker::Model;
use triangle_lists::{border_list, count_undirected, first_fault, turned_in_order};

/// A whole mesh: at most 2^24 vertices by their names, and at most 2^24 triangles of three different ones of them,
/// each turned so that its least name comes first, ascending by their names. The vertices have at most 3 · 2^24 planes.
#[derive(Drop)]
pub struct PlainMesh {
    pub(crate) vertices: VertexMap,
    pub(crate) tris: Vec<Tri>,
}

impl Model for PlainMesh {
    ghost use Rattle.std.specs.Prelude.{◌≤◌, length, All};
    ghost use Rattle.std.specs.List.Sorted.{IsSorted};
    ghost use Rattle.std.specs.FinMap as finite;
    ghost use Rattle.mesh_data.specs.Manifold.{IsTriangleOf};
    ghost use Rattle.mesh_data.specs.Mesh.{Mesh, mesh_code};
    ghost use Rattle.mesh_data.specs.Triangles.{tri_cmp};
    ghost use Rattle.plane_counts.specs.PlaneCounts.{HasPlanes};
    ghost use Rattle.oemm_limits.specs.declared.TheConstants.{MOST_ITEMS};

    ghost Value = { Mesh };

    ghost coded = { mesh_code };

    ghost view = { λ m. record { vertices = m.vertices; tris = m.tris.items } };

    ghost invariant = { λ m. (finite.len m.vertices ≤ MOST_ITEMS) × (length m.tris.items ≤ MOST_ITEMS)
        × All (IsTriangleOf m.vertices) m.tris.items × HasPlanes m.vertices × IsSorted tri_cmp m.tris.items };
}

impl PlainMesh {
    /// The start mesh of points and faces: vertices are named by their places, and faces turned and put in
    /// order.
    ///
    /// # Errors
    /// Want of memory.
    pub fn from_soup(
        alloc: Global,
        points: &[Point],
        faces: &[Tri],
    ) -> Result<PlainMesh, AllocError>
        requires points { length points.now ≤ MOST_ITEMS }
        requires faces { length faces.now ≤ MOST_ITEMS }
        requires proper { All IsProper faces.now }
        requires below { All (IsBelow (length points.now)) faces.now }
        ensures { IfOk result (λ m. m ≡ start (record { points = points.now; faces = faces.now })) }
    {
        let tris = turned_in_order(alloc, faces)?;
        let planes = plane_lists(alloc, points, tris.as_slice())?;
        let vertices = VertexMap::at_points(alloc, points, planes)?;
        Ok(PlainMesh { vertices, tris })
    }

    /// An equal mesh. It takes time and memory of about the size of the mesh.
    pub(crate) fn copy(&self, alloc: Global) -> Result<PlainMesh, AllocError>
        ensures { IfOk result (λ copy. copy ≡ self.now) }
    {
        Ok(PlainMesh {
            vertices: self.vertices.copy(alloc)?,
            tris: Vec::from_slice(alloc, self.tris.as_slice())?,
        })
    }

    /// The names of the vertices, ascending.
    ///
    /// # Errors
    /// Want of memory.
    #[tactic(auto, using(edit_steps::proofs::Vertices::few_names))]
    pub fn names(&self, alloc: Global) -> Result<NameSet, AllocError>
        ensures names { IfOk result (λ names. names ≡ names_of self.now) }
        ensures few { IfOk result (λ names. length names ≤ MOST_ITEMS) }
    {
        self.vertices.names(alloc)
    }

    /// The points of the vertices, in the order of the names.
    ///
    /// # Errors
    /// Want of memory.
    #[tactic(auto, using(edit_steps::proofs::Vertices::few_points))]
    pub fn points(&self, alloc: Global) -> Result<Points, AllocError>
        ensures points { IfOk result (λ points. points ≡ points_of self.now) }
        ensures few { IfOk result (λ points. length points ≤ MOST_ITEMS) }
    {
        self.vertices.points(alloc)
    }

    /// The point of a vertex, if the mesh has it.
    pub fn point(&self, v: Name) -> Option<Point>
        ensures { result ≡ point_of self.now v }
    {
        self.vertices.point(v)
    }

    /// The planes of a vertex, if the mesh has it.
    pub fn planes(&self, v: Name) -> Option<&Planes>
        ensures { option_copied result ≡ planes_of self.now v }
    {
        self.vertices.planes(v)
    }

    /// The triangles, ascending by their names, each turned so that its least name comes first.
    ///
    /// # Errors
    /// Want of memory.
    pub fn tris(&self, alloc: Global) -> Result<Tris, AllocError>
        ensures tris { IfOk result (λ tris. tris ≡ self.now.tris) }
        ensures few { IfOk result (λ tris. length tris ≤ MOST_ITEMS) }
        ensures ascending { IfOk result (λ tris. IsSorted tri_cmp tris) }
        ensures triangles { IfOk result (λ tris. All (IsTriangleOf self.now.vertices) tris) }
    {
        let tris = Vec::from_slice(alloc, self.tris.as_slice())?;
        Ok(List::from_vec(tris))
    }

    /// The Euler characteristic: the vertices and triangles, less the undirected edges.
    ///
    /// # Errors
    /// Want of memory.
    pub fn euler(&self, alloc: Global) -> Result<i64, AllocError>
        ensures euler { IfOk result (λ e. e ≡ euler self.now) }
        ensures small { IfOk result (λ e. nat_abs e < 2 ^ 31) }
    {
        let edges = count_undirected(alloc, self.tris.as_slice())?;
        let cells = self.vertices.len() + self.tris.len();
        Ok(cells as i64 - edges as i64)
    }

    /// Whether the mesh is an oriented 2-manifold: the least directed edge that two triangles have, else the least
    /// vertex that is in a triangle and has no ring, else the mesh's numbers. It takes time of about F log F for F
    /// triangles.
    ///
    /// # Errors
    /// Want of memory.
    pub fn audit(&self, alloc: Global) -> Result<Audit, AllocError>
        ensures { IfOk result (Audits self.now) }
    {
        match first_fault(alloc, self.tris.as_slice())? {
            Some(shape) => Ok(Audit::Bad(shape)),
            None => self.counts(alloc),
        }
    }

    /// The numbers of the mesh, which is a manifold.
    fn counts(&self, alloc: Global) -> Result<Audit, AllocError>
        requires edges { IsEachEdgeOnce self.now.tris }
        requires rings { IsRinged self.now.tris }
        ensures { IfOk result (Audits self.now) }
    {
        let euler = self.euler(alloc)?;
        let border = self.border(alloc)?;
        Ok(Audit::Good {
            vertices: self.vertices.len() as u32,
            faces: self.tris.len() as u32,
            euler: euler as i32,
            border: border.len() as u32,
        })
    }

    /// Twice the Euler characteristic: twice the vertices and triangles, less twice the undirected edges.
    ///
    /// # Errors
    /// Want of memory.
    pub fn euler2(&self, alloc: Global) -> Result<i64, AllocError>
        ensures { IfOk result (λ e. e ≡ euler2 self.now) }
    {
        let edges = count_undirected(alloc, self.tris.as_slice())?;
        let cells = self.vertices.len() + self.tris.len();
        Ok((2 * cells) as i64 - (2 * edges) as i64)
    }

    /// The directed edges whose reverse is in no triangle, ascending.
    ///
    /// # Errors
    /// Want of memory.
    pub fn border(&self, alloc: Global) -> Result<Edges, AllocError>
        ensures edges { IfOk result (λ edges. edges ≡ border self.now) }
        ensures few { IfOk result (λ edges. length edges ≤ 3 * MOST_ITEMS) }
    {
        border_list(alloc, self.tris.as_slice())
    }
}
