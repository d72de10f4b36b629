//! The octahedron over the octants of the grid, before and after edits, cut and written back.

ghost use Rattle.std.specs.Prelude.{◌≡◌, ◌<◌, ◌≤◌, true, not, map, length, IfOk, IsTrue, All};
ghost use Rattle.std.specs.List.{filter, range_with_len};
ghost use Rattle.oemm_limits.specs.declared.TheConstants.{MOST_ITEMS};
ghost use Rattle.oemm_lists.specs.Numbers.{among};
ghost use Rattle.oemm_octree.specs.Leaves.{AreTiles};
ghost use Rattle.oemm_octree.specs.Octree.{IsOnGrid, on_grid};
ghost use Rattle.mesh_data.specs.Triangles.{IsBelow, IsProper};
ghost use Rattle.mesh_sheets.specs.Sheets.{sheet};
ghost use Rattle.mesh_cutting.specs.Cuts.{mesh_in};
ghost use Rattle.sheet_forms.specs.Formed.{IsPatchFor};
ghost use Rattle.sheet_forms.specs.Storable.{IsStorable};

use super::*;
use mesh_cutting::MeshCut;
use mesh_data::{Name, Tri, Tris};
use oemm_octree::{Cell, Cells, LeafNo, LeafSet, Point, Points, meeting, tiles};
use patch_assembly::assemble;
use sheet_data::{LeafSheet, Patch, Sheets};
use std::alloc::{AllocError, Global};
use std::test::Fail;

const POINTS: [[i16; 3]; 6] = [
    [4, 0, 0],
    [-4, 0, 0],
    [0, 4, 0],
    [0, -4, 0],
    [0, 0, 4],
    [0, 0, -4],
];

const FACES: [[u32; 3]; 8] = [
    [0, 2, 4],
    [2, 1, 4],
    [1, 3, 4],
    [3, 0, 4],
    [2, 0, 5],
    [1, 2, 5],
    [3, 1, 5],
    [0, 3, 5],
];

/// Vertex 4 lies in another octant, which had none.
const MOVED: [[i16; 3]; 6] = [
    [4, 0, 0],
    [-4, 0, 0],
    [0, 4, 0],
    [0, -4, 0],
    [-1, -1, 1],
    [0, 0, -4],
];

/// The edge of 0 and 2 is turned to 4 and 5.
const FLIPPED: [[u32; 3]; 8] = [
    [4, 0, 5],
    [2, 1, 4],
    [1, 3, 4],
    [3, 0, 4],
    [5, 2, 4],
    [1, 2, 5],
    [3, 1, 5],
    [0, 3, 5],
];

/// Vertex 3 is put for 5.
const COLLAPSED: [[u32; 3]; 6] = [
    [0, 2, 4],
    [2, 1, 4],
    [1, 3, 4],
    [3, 0, 4],
    [2, 0, 3],
    [1, 2, 3],
];

fn on_axis(n: i16) -> bool
    ensures { on_grid n ≡ true }
{
    n == n
}

fn is_on_grid(p: &Point) -> bool
    ensures { IsTrue result → IsOnGrid p.now }
{
    on_axis(p.x) && on_axis(p.y) && on_axis(p.z)
}

fn are_on_grid(points: &[Point]) -> bool
    ensures { IsTrue result → All IsOnGrid points.now }
{
    for p in points {
        if !is_on_grid(p) {
            return false;
        }
    }
    true
}

fn is_face(points: usize, t: &Tri) -> bool
    ensures proper { IsTrue result → IsProper t.now }
    ensures below { IsTrue result → IsBelow points t.now }
{
    t.a != t.b
        && t.b != t.c
        && t.c != t.a
        && (t.a.0 as usize) < points
        && (t.b.0 as usize) < points
        && (t.c.0 as usize) < points
}

fn are_faces(points: usize, faces: &[Tri]) -> bool
    ensures proper { IsTrue result → All IsProper faces.now }
    ensures below { IsTrue result → All (IsBelow points) faces.now }
{
    for t in faces {
        if !is_face(points, t) {
            return false;
        }
    }
    true
}

fn points_of(alloc: Global, rows: &[[i16; 3]]) -> Result<Points, AllocError> {
    let mut points = Points::new(alloc);
    for p in rows {
        points.add(at(p))?;
    }
    Ok(points)
}

fn tris_by(alloc: Global, rows: &[[u32; 3]]) -> Result<Tris, AllocError> {
    let mut faces = Tris::new(alloc);
    for f in rows {
        faces.add(Tri {
            a: Name(f[0]),
            b: Name(f[1]),
            c: Name(f[2]),
        })?;
    }
    Ok(faces)
}

/// The octants of the grid.
fn octants(alloc: Global) -> Result<Cells, AllocError>
    ensures { IfOk result AreTiles }
{
    let mut cells = Cells::new(alloc);
    for n in 0..8u8 {
        cells.add(Cell {
            depth: 1,
            x: n & 1,
            y: n >> 1 & 1,
            z: n >> 2,
        })?;
    }
    if !tiles(&cells) {
        return Err(AllocError);
    }
    Ok(cells)
}

/// The mesh of these points and faces, which are few and go together, cut by these cells.
fn cut_of(alloc: Global, cells: Cells, points: Points, faces: Tris) -> Result<MeshCut, AllocError>
    requires { AreTiles cells }
    ensures tiles { IfOk result (λ cut. AreTiles cut.cells) }
    ensures few { IfOk result (λ cut. length cut.points ≤ MOST_ITEMS) }
    ensures storable { IfOk result (λ cut. IsStorable cut.cells (length cut.points) (mesh_in cut)) }
{
    if points.len() > 99
        || faces.len() > 99
        || !are_on_grid(points.slice())
        || !are_faces(points.len(), faces.slice())
    {
        return Err(AllocError);
    }
    MeshCut::of(alloc, cells, points, faces)
}

/// The sheets of these leaves.
fn sheets_at(alloc: Global, cut: &MeshCut, leaves: &[LeafNo]) -> Result<Sheets, AllocError>
    requires { All (λ l. l < length cut.now.cells) leaves.now }
    ensures { IfOk result (λ sheets. sheets ≡ map (sheet cut.now.cells (mesh_in cut.now)) leaves.now) }
{
    let mut sheets = Sheets::new(alloc);
    for leaf in leaves {
        sheets.add(cut.sheet(alloc, *leaf)?)?;
    }
    Ok(sheets)
}

/// The leaves that aren't of the core, among so many.
fn rest_of(alloc: Global, count: u32, core: &LeafSet) -> Result<Vec<LeafNo>, AllocError>
    ensures { IfOk result
        (λ rest. rest.items ≡ filter (λ l. not (among l core.now)) (range_with_len 0 count)) }
{
    (0..count)
        .map(|n| LeafNo(n))
        .filter(|leaf| !core.has(*leaf))
        .collect(alloc)
}

/// The patch of the core, whose sheets are these.
fn patch_by(
    alloc: Global,
    cut: &MeshCut,
    core: &LeafSet,
    inner: &Sheets,
) -> Result<Patch, AllocError>
    requires tiles { AreTiles cut.now.cells }
    requires few { length cut.now.points ≤ MOST_ITEMS }
    requires storable { IsStorable cut.now.cells (length cut.now.points) (mesh_in cut.now) }
    requires below { All (λ l. l < length cut.now.cells) core.now }
    requires inner { inner.now ≡ map (sheet cut.now.cells (mesh_in cut.now)) core.now }
    ensures { IfOk result (IsPatchFor cut.now.cells core.now) }
{
    let rest = rest_of(alloc, cut.cells().len() as u32, core)?;
    let outer = sheets_at(alloc, cut, rest.as_slice())?;
    match assemble(alloc, core, inner.slice(), outer.slice()) {
        Ok(patch) => Ok(patch),
        Err(_) => Err(AllocError),
    }
}

fn are_below(count: usize, leaves: &[LeafNo]) -> bool
    ensures { IsTrue result → All (λ l. l < count) leaves.now }
{
    for leaf in leaves {
        if leaf.0 as usize >= count {
            return false;
        }
    }
    true
}

fn is_same(made: &LeafSheet, wanted: &LeafSheet) -> bool {
    made.leaf == wanted.leaf
        && made.faces.slice() == wanted.faces.slice()
        && made.near.slice() == wanted.near.slice()
        && made.vertices.len() == wanted.vertices.len()
        && made
            .vertices
            .slice()
            .iter()
            .zip(wanted.vertices.slice())
            .all(|(x, y)| x.name == y.name && x.point == y.point && x.quad == y.quad)
}

/// Whether the patch of the leaves that a box meets is written back as the sheets of the mesh.
fn comes_back(alloc: Global, cut: &MeshCut, low: Point, high: Point) -> Result<bool, AllocError>
    requires tiles { AreTiles cut.now.cells }
    requires few { length cut.now.points ≤ MOST_ITEMS }
    requires storable { IsStorable cut.now.cells (length cut.now.points) (mesh_in cut.now) }
{
    let core = meeting(alloc, cut.cells(), low, high)?;
    if !are_below(cut.cells().len(), core.slice()) {
        return Err(AllocError);
    }
    let inner = sheets_at(alloc, cut, core.slice())?;
    let patch = patch_by(alloc, cut, &core, &inner)?;
    let made = sheets_of(alloc, &patch, cut.cells(), &core)?;
    Ok(
        made.len() == inner.len()
            && made
                .slice()
                .iter()
                .zip(inner.slice())
                .all(|(x, y)| is_same(x, y)),
    )
}

/// Boxes that meet one octant, two, four and all.
const BOXES: [[[i16; 3]; 2]; 11] = [
    [[0, 0, 0], [1, 1, 1]],
    [[-1, 0, 0], [-1, 1, 1]],
    [[0, -1, 0], [1, -1, 1]],
    [[-1, -1, 0], [-1, -1, 0]],
    [[0, 0, -1], [1, 1, -1]],
    [[-2, -2, -2], [-1, -1, -1]],
    [[-1, 0, 0], [0, 0, 0]],
    [[-1, -1, -1], [-1, -1, 0]],
    [[0, -1, 0], [0, 0, 0]],
    [[-1, -1, 0], [0, 0, 0]],
    [[-1, -1, -1], [0, 0, 0]],
];

fn at(p: &[i16; 3]) -> Point {
    Point {
        x: p[0],
        y: p[1],
        z: p[2],
    }
}

#[test]
fn patches_of_the_octahedron_come_back(rt: HostRuntime) -> Result<(), Fail> {
    let alloc = rt.alloc();
    for (points, faces) in [
        (&POINTS[..], &FACES[..]),
        (&MOVED, &FACES),
        (&POINTS, &FLIPPED),
        (&POINTS[..5], &COLLAPSED),
    ] {
        let points = points_of(alloc, points)?;
        let cut = cut_of(alloc, octants(alloc)?, points, tris_by(alloc, faces)?)?;
        for [low, high] in &BOXES {
            assert!(rt; comes_back(alloc, &cut, at(low), at(high))?);
        }
    }
    Ok(())
}
