//! The octahedron, cut into the octants of the grid.

ghost use Rattle.std.specs.Prelude.{◌≡◌, true, IfOk, IsTrue, All};
ghost use Rattle.oemm_octree.specs.Leaves.{AreTiles};
ghost use Rattle.oemm_octree.specs.Octree.{IsOnGrid, on_grid};
ghost use Rattle.mesh_data.specs.Triangles.{IsBelow, IsProper};

use super::*;
use mesh_data::{Name, Tri, Tris};
use oemm_octree::{Cells, Counts, LeafNo, Point, Points, tiles};
use sheet_data::LeafSheet;
use std::alloc::{AllocError, Global};
use std::test::Fail;

const POINTS: [[i16; 3]; 6] = [
    [4, 0, 0],
    [-4, 0, 0],
    [0, 4, 0],
    [0, -4, 0],
    [0, 0, 4],
    [0, 0, -4],
];

const FACES: [[u32; 3]; 8] = [
    [0, 2, 4],
    [2, 1, 4],
    [1, 3, 4],
    [3, 0, 4],
    [2, 0, 5],
    [1, 2, 5],
    [3, 1, 5],
    [0, 3, 5],
];

fn on_axis(n: i16) -> bool
    ensures { on_grid n ≡ true }
{
    n == n
}

fn is_on_grid(p: &Point) -> bool
    ensures { IsTrue result → IsOnGrid p.now }
{
    on_axis(p.x) && on_axis(p.y) && on_axis(p.z)
}

fn are_on_grid(points: &[Point]) -> bool
    ensures { IsTrue result → All IsOnGrid points.now }
{
    for p in points {
        if !is_on_grid(p) {
            return false;
        }
    }
    true
}

fn is_face(points: usize, t: &Tri) -> bool
    ensures proper { IsTrue result → IsProper t.now }
    ensures below { IsTrue result → IsBelow points t.now }
{
    t.a != t.b
        && t.b != t.c
        && t.c != t.a
        && (t.a.0 as usize) < points
        && (t.b.0 as usize) < points
        && (t.c.0 as usize) < points
}

fn are_faces(points: usize, faces: &[Tri]) -> bool
    ensures proper { IsTrue result → All IsProper faces.now }
    ensures below { IsTrue result → All (IsBelow points) faces.now }
{
    for t in faces {
        if !is_face(points, t) {
            return false;
        }
    }
    true
}

fn at(p: &[i16; 3]) -> Point {
    Point {
        x: p[0],
        y: p[1],
        z: p[2],
    }
}

/// The leaves over these points.
fn octree(alloc: Global, points: &[[i16; 3]], cap: u32) -> Result<Cells, AllocError>
    ensures { IfOk result AreTiles }
{
    let mut counts = Counts::new(alloc)?;
    if points.len() > 99 {
        return Err(AllocError);
    }
    for p in points {
        counts.add(at(p));
    }
    let cells = counts.leaves(alloc, cap)?;
    if !tiles(&cells) {
        return Err(AllocError);
    }
    Ok(cells)
}

/// The octahedron, cut by the leaves over its points with this cap.
fn octahedron(alloc: Global, cap: u32) -> Result<MeshCut, AllocError> {
    let cells = octree(alloc, POINTS.as_slice(), cap)?;
    let mut points = Points::new(alloc);
    for p in &POINTS {
        points.add(at(p))?;
    }
    let mut faces = Tris::new(alloc);
    for f in &FACES {
        faces.add(Tri {
            a: Name(f[0]),
            b: Name(f[1]),
            c: Name(f[2]),
        })?;
    }
    if points.len() > 99
        || faces.len() > 99
        || !are_on_grid(points.slice())
        || !are_faces(points.len(), faces.slice())
    {
        return Err(AllocError);
    }
    MeshCut::of(alloc, cells, points, faces)
}

/// Whether the sheet has these names, each with this many planes, these triangles and these near leaves.
fn is_sheet(made: &LeafSheet, names: &[u32], planes: u32, tris: &[[u32; 3]], near: &[u32]) -> bool {
    let vertices = made.vertices.slice();
    let faces = made.faces.slice();
    let leaves = made.near.slice();
    vertices.len() == names.len()
        && faces.len() == tris.len()
        && leaves.len() == near.len()
        && vertices
            .iter()
            .zip(names)
            .all(|(v, n)| v.name.0 == *n && v.quad.planes == planes)
        && faces
            .iter()
            .zip(tris)
            .all(|(t, f)| [t.a.0, t.b.0, t.c.0] == *f)
        && leaves.iter().zip(near).all(|(l, n)| l.0 == *n)
}

#[test]
fn the_octahedron_is_cut_into_octants(rt: HostRuntime) -> Result<(), Fail> {
    let cut = octahedron(rt.alloc(), 3)?;
    assert_eq!(rt; cut.cells().len(), 8);
    for (leaf, names, tris, near) in [
        (0, &[][..], &[][..], &[][..]),
        (
            3,
            &[5],
            &[[0, 3, 5], [0, 5, 2], [1, 2, 5], [1, 5, 3]],
            &[5, 6, 7],
        ),
        (5, &[3], &[[0, 4, 3], [1, 3, 4]], &[3, 6, 7]),
        (6, &[1], &[[1, 4, 2]], &[3, 5, 7]),
        (7, &[0, 2, 4], &[[0, 2, 4]], &[3, 5, 6]),
    ] {
        if leaf < cut.cells().len() as u32 {
            let made = cut.sheet(rt.alloc(), LeafNo(leaf))?;
            assert!(rt; is_sheet(&made, names, 4, tris, near));
        }
    }
    Ok(())
}

#[test]
fn one_leaf_has_the_whole_mesh(rt: HostRuntime) -> Result<(), Fail> {
    let cut = octahedron(rt.alloc(), 6)?;
    assert_eq!(rt; cut.cells().len(), 1);
    assert_eq!(rt; cut.points().len(), 6);
    if 0 < cut.cells().len() {
        let made = cut.sheet(rt.alloc(), LeafNo(0))?;
        assert_eq!(rt; made.vertices.len(), 6);
        assert_eq!(rt; made.faces.slice(), cut.tris());
        assert_eq!(rt; made.near.len(), 0);
    }
    Ok(())
}
