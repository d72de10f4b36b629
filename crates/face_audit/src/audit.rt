//! The audit of a number of vertices and a list of faces.

ghost use Rattle.std.specs.Prelude.{◌≡◌, ◌≤◌, ◌<◌, ◌*◌, ◌^◌, ◌-ℤ◌, pos, nat_abs, length, All, IfOk, None};
ghost use Rattle.oemm_limits.specs.declared.TheConstants.{MOST_ITEMS};
ghost use Rattle.std.specs.FinSet as set;
ghost use Rattle.mesh_data.specs.Manifold.{IsEachEdgeOnce};
ghost use Rattle.mesh_data.specs.Triangles.{IsBelow, IsProper, border_edges, undirected_edges};
ghost use Rattle.face_audit.specs.Audit.{AuditsFaces};
ghost use Rattle.triangle_lists.specs.Audit.{FindsShape};

use crate::parts::find_in_parts;
use mesh_data::{Audit, Tri};
use oemm_limits::MOST_ITEMS;
use std::alloc::{AllocError, Global};

/// So many names are looked at together: few enough that the faces at them are a small part of a large mesh, also where
/// names that are near to one another lie far apart in it.
const PART_NAMES: u32 = 1 << 18;

/// One more than the greatest name of the face.
fn above(t: &Tri) -> u32
    requires { IsBelow MOST_ITEMS t.now }
    ensures { IsBelow result t.now }
{
    t.a.0.max(t.b.0).max(t.c.0) + 1
}

/// A number above each name of the faces.
fn end_of_names(faces: &[Tri]) -> u32
    requires { All (IsBelow MOST_ITEMS) faces.now }
    ensures { All (IsBelow result) faces.now }
{
    let mut end = 0;
    for t in faces {
        end = end.max(above(t));
    }
    end
}

/// The Euler characteristic of so many vertices and faces together and so many undirected edges.
fn euler(cells: usize, edges: usize) -> i64
    requires cells { cells ≤ 2 * MOST_ITEMS }
    requires edges { edges ≤ 3 * MOST_ITEMS }
    ensures euler { result ≡ pos cells -ℤ pos edges }
    ensures small { nat_abs result < 2 ^ 31 }
{
    cells as i64 - edges as i64
}

/// The number of undirected edges of faces with so many border edges: each other one is in two faces.
fn count_edges(faces: &[Tri], border: usize) -> usize
    requires few { length faces.now ≤ MOST_ITEMS }
    requires proper { All IsProper faces.now }
    requires once { IsEachEdgeOnce faces.now }
    requires border { border ≡ length (border_edges faces.now) }
    ensures count { result ≡ set.len (undirected_edges faces.now) }
    ensures few { result ≤ 3 * MOST_ITEMS }
{
    (3 * faces.len() + border) / 2
}

/// The numbers of faces with which nothing is wrong, and which have so many border edges.
fn good(vertices: u32, faces: &[Tri], border: usize) -> Audit
    requires vertices { vertices ≤ MOST_ITEMS }
    requires few { length faces.now ≤ MOST_ITEMS }
    requires proper { All IsProper faces.now }
    requires sound { FindsShape faces.now None }
    requires border { border ≡ length (border_edges faces.now) }
    ensures { AuditsFaces vertices faces.now result }
{
    let edges = count_edges(faces, border);
    let euler = euler(vertices as usize + faces.len(), edges);
    Audit::Good {
        vertices,
        faces: faces.len() as u32,
        euler: euler as i32,
        border: border as u32,
    }
}

/// The audit in parts of at most so many names.
pub(crate) fn audit_by(
    alloc: Global,
    vertices: u32,
    faces: &[Tri],
    width: u32,
) -> Result<Audit, AllocError>
    requires vertices { vertices ≤ MOST_ITEMS }
    requires few { length faces.now ≤ MOST_ITEMS }
    requires names { All (IsBelow MOST_ITEMS) faces.now }
    requires proper { All IsProper faces.now }
    requires wide { 0 < width }
    ensures { IfOk result (AuditsFaces vertices faces.now) }
{
    let found = find_in_parts(alloc, faces, end_of_names(faces), width)?;
    match found.fault {
        Some(shape) => Ok(Audit::Bad(shape)),
        None => Ok(good(vertices, faces, found.border)),
    }
}

/// The audit of so many vertices and of the faces, each as often as it comes: the least directed edge that two faces
/// have, else the least vertex that is in a face and has no ring, else the numbers. The names are looked at in parts. For
/// F faces it takes time of about F log F, and a reading of all faces for each part; and memory for the faces at the names
/// of one part.
///
/// # Errors
/// Want of memory.
pub fn audit_faces(alloc: Global, vertices: u32, faces: &[Tri]) -> Result<Audit, AllocError>
    requires vertices { vertices ≤ MOST_ITEMS }
    requires few { length faces.now ≤ MOST_ITEMS }
    requires names { All (IsBelow MOST_ITEMS) faces.now }
    requires proper { All IsProper faces.now }
    ensures { IfOk result (AuditsFaces vertices faces.now) }
{
    audit_by(alloc, vertices, faces, PART_NAMES)
}
