ghost use Rattle.std.specs.Prelude.{◌≡◌, ◌≤◌, ◌<◌, ◌^◌, length, IsTrue, IfOk, All};
ghost use Rattle.oemm_octree.specs.Octree.{AreCells};
ghost use Rattle.mesh_data.specs.Triangles.{IsProper, IsBelow};

use super::*;
use std::alloc::{AllocError, Global};
use std::test::Fail;

fn is_face(points: usize, t: &Tri) -> bool
    ensures proper { IsTrue result → IsProper t.now }
    ensures below { IsTrue result → IsBelow points t.now }
{
    t.a != t.b
        && t.b != t.c
        && t.c != t.a
        && (t.a.0 as usize) < points
        && (t.b.0 as usize) < points
        && (t.c.0 as usize) < points
}

fn are_faces(points: usize, faces: &[Tri]) -> bool
    ensures proper { IsTrue result → All IsProper faces.now }
    ensures below { IsTrue result → All (IsBelow points) faces.now }
{
    for t in faces {
        if !is_face(points, t) {
            return false;
        }
    }
    true
}

fn mesh_of(alloc: Global, at: &[[i16; 3]], faces: &[[u32; 3]]) -> Result<PlainMesh, AllocError> {
    let mut points = Vec::new(alloc);
    for p in at {
        points.push(Point {
            x: p[0],
            y: p[1],
            z: p[2],
        })?;
    }
    let mut tris = Vec::new(alloc);
    for f in faces {
        tris.push(tri(f[0], f[1], f[2]))?;
    }
    if points.len() > 99 || tris.len() > 99 || !are_faces(points.len(), &tris) {
        return Err(AllocError);
    }
    PlainMesh::from_soup(alloc, &points, &tris)
}

fn octree(alloc: Global, depth: u8, xs: &[u8]) -> Result<Cells, AllocError>
    requires depth { depth ≤ 6 }
    requires few { length xs.now < 2 ^ 32 }
    ensures cells { IfOk result AreCells }
    ensures len { IfOk result (λ cells. length cells ≡ length xs.now) }
{
    let mut cells = Vec::new(alloc);
    for x in xs {
        cells.push(Cell {
            depth,
            x: *x,
            y: depth,
            z: depth,
        })?;
    }
    Ok(List::from_vec(cells))
}

fn task_on(alloc: Global, low: Point, high: Point, edits: &[Edit]) -> Result<Task, AllocError>
    ensures low { IfOk result (λ task. task.low ≡ low) }
    ensures high { IfOk result (λ task. task.high ≡ high) }
{
    Ok(Task {
        lane: Lane(0),
        number: 0,
        low,
        high,
        edits: List::from_vec(Vec::from_slice(alloc, edits)?),
    })
}

fn at(x: i16, y: i16, z: i16) -> Point
    ensures { result ≡ record { x = x; y = y; z = z } }
{
    Point { x, y, z }
}

fn tri(a: u32, b: u32, c: u32) -> Tri {
    Tri {
        a: Name(a),
        b: Name(b),
        c: Name(c),
    }
}

fn edge(a: u32, b: u32) -> Edge {
    Edge {
        a: Name(a),
        b: Name(b),
    }
}

fn to(v: u32, x: i16, y: i16, z: i16) -> Edit {
    Edit::Move {
        v: Name(v),
        to: at(x, y, z),
    }
}

/// A mesh of the table of samples.
#[derive(Clone, Copy, PartialEq, Eq)]
enum Sample {
    Empty,
    Triangle,
    Tetrahedron,
    Octahedron,
    Square,
    OneSide,
    TwoOctants,
    DoublePyramid,
    LeaningPyramid,
    Fan,
}

const TETRAHEDRON: [[i16; 3]; 4] = [[0, 0, 0], [4, 0, 0], [0, 4, 0], [0, 0, 4]];

const TETRAHEDRON_FACES: [[u32; 3]; 4] = [[0, 2, 1], [0, 1, 3], [0, 3, 2], [1, 2, 3]];

const OCTAHEDRON: [[i16; 3]; 6] = [
    [4, 0, 0],
    [-4, 0, 0],
    [0, 4, 0],
    [0, -4, 0],
    [0, 0, 4],
    [0, 0, -4],
];

const OCTAHEDRON_FACES: [[u32; 3]; 8] = [
    [0, 2, 4],
    [2, 1, 4],
    [1, 3, 4],
    [3, 0, 4],
    [2, 0, 5],
    [1, 2, 5],
    [3, 1, 5],
    [0, 3, 5],
];

const SQUARE: [[i16; 3]; 4] = [[-9, -9, 0], [9, -9, 2], [-9, 9, 6], [9, 9, -9]];

/// Of the four points the last lies on the left of the plane where x is 0.
const TWO_OCTANTS: [[i16; 3]; 4] = [[5, 0, 0], [1, 0, 0], [1, 4, 0], [-3, 2, 0]];

const DOUBLE_PYRAMID: [[i16; 3]; 5] = [[6, 0, 0], [0, 6, 0], [-6, -6, 0], [0, 0, 6], [0, 0, -6]];

const DOUBLE_PYRAMID_FACES: [[u32; 3]; 6] = [
    [0, 1, 3],
    [1, 2, 3],
    [2, 0, 3],
    [1, 0, 4],
    [2, 1, 4],
    [0, 2, 4],
];

/// A double pyramid that has two cheaper pairs of vertices with three common neighbours.
const LEANING_PYRAMID: [[i16; 3]; 5] = [[-2, -2, 0], [-2, 3, 0], [-2, 0, 0], [0, 1, 0], [3, 1, 1]];

const FAN: [[i16; 3]; 5] = [[0, 0, 0], [10, 0, 0], [1, 1, 0], [0, 10, 0], [-10, -10, 0]];

const FAN_FACES: [[u32; 3]; 4] = [[0, 1, 2], [0, 2, 3], [0, 3, 4], [0, 4, 1]];

fn sample_mesh(alloc: Global, of: Sample) -> Result<PlainMesh, AllocError> {
    let (points, faces): (&[[i16; 3]], &[[u32; 3]]) = match of {
        Sample::Empty => (&[], &[]),
        Sample::Triangle => (&[[0, 0, 0], [1, 0, 0], [0, 1, 0]], &[[2, 0, 1]]),
        Sample::Tetrahedron => (&TETRAHEDRON, &TETRAHEDRON_FACES),
        Sample::Octahedron => (&OCTAHEDRON, &OCTAHEDRON_FACES),
        Sample::Square => (&SQUARE, &[[0, 1, 2], [1, 3, 2]]),
        Sample::OneSide => (&SQUARE, &[[0, 1, 2], [0, 1, 3]]),
        Sample::TwoOctants => (&TWO_OCTANTS, &[[0, 2, 1], [1, 2, 3]]),
        Sample::DoublePyramid => (&DOUBLE_PYRAMID, &DOUBLE_PYRAMID_FACES),
        Sample::LeaningPyramid => (&LEANING_PYRAMID, &DOUBLE_PYRAMID_FACES),
        Sample::Fan => (&FAN, &FAN_FACES),
    };
    mesh_of(alloc, points, faces)
}

fn plane(nx: i64, ny: i64, nz: i64, d: i64) -> Plane {
    Plane { nx, ny, nz, d }
}

#[test]
fn tells_the_parts_of_a_tetrahedron(rt: HostRuntime) -> Result<(), Fail> {
    let mesh = sample_mesh(rt.alloc(), Sample::Tetrahedron)?;
    let points = mesh.points(rt.alloc())?;
    assert_eq!(rt; points.len(), 4);
    assert_eq!(rt; points.slice()[1], at(4, 0, 0));
    let tris = mesh.tris(rt.alloc())?;
    assert_eq!(rt; tris.len(), 4);
    assert_eq!(rt; tris.slice()[0], tri(0, 1, 3));
    assert_eq!(rt; mesh.names(rt.alloc())?.len(), 4);
    assert_eq!(rt; mesh.euler(rt.alloc())?, 2);
    assert_eq!(rt; turned_tri(&tri(7, 3, 5)), tri(3, 5, 7));
    Ok(())
}

#[test]
fn the_last_vertex_has_the_planes_of_three_faces(rt: HostRuntime) -> Result<(), Fail> {
    let mesh = sample_mesh(rt.alloc(), Sample::Tetrahedron)?;
    let planes = mesh.planes(Name(3)).map(|planes| planes.slice());
    let want = [
        plane(0, -16, 0, 0),
        plane(-16, 0, 0, 0),
        plane(16, 16, 16, -64),
    ];
    assert_eq!(rt; planes, Some(want.as_slice()));
    assert!(rt; mesh.planes(Name(4)).is_none());
    Ok(())
}

/// Numbers of vertices, faces and border edges, and an Euler characteristic.
#[derive(Clone, Copy, PartialEq, Eq)]
struct Counts(u32, u32, u32, i32);

/// What the audit counts, where it finds nothing bad.
fn audited(alloc: Global, mesh: &PlainMesh) -> Result<Option<Counts>, AllocError> {
    Ok(match mesh.audit(alloc)? {
        Audit::Good {
            vertices,
            faces,
            euler,
            border,
        } => Some(Counts(vertices, faces, border, euler)),
        Audit::Bad(Shape::Edge { .. } | Shape::Vertex { .. }) => None,
    })
}

#[test]
fn audits(rt: HostRuntime) -> Result<(), Fail> {
    for (of, want, euler2, border) in [
        (Sample::Tetrahedron, Counts(4, 4, 0, 2), 4, 0),
        (Sample::Octahedron, Counts(6, 8, 0, 2), 4, 0),
        (Sample::Square, Counts(4, 2, 4, 1), 2, 4),
        (Sample::Triangle, Counts(3, 1, 3, 1), 2, 3),
        (Sample::Empty, Counts(0, 0, 0, 0), 0, 0),
    ] {
        let mesh = sample_mesh(rt.alloc(), of)?;
        assert!(rt; audited(rt.alloc(), &mesh)? == Some(want));
        assert_eq!(rt; mesh.euler2(rt.alloc())?, euler2);
        assert_eq!(rt; mesh.border(rt.alloc())?.len(), border);
    }
    Ok(())
}

#[test]
fn two_triangles_are_a_disk_or_bad(rt: HostRuntime) -> Result<(), Fail> {
    let disk = sample_mesh(rt.alloc(), Sample::Square)?;
    let border = [edge(0, 1), edge(1, 3), edge(2, 0), edge(3, 2)];
    assert_eq!(rt; disk.border(rt.alloc())?.slice(), border.as_slice());
    let bad = sample_mesh(rt.alloc(), Sample::OneSide)?;
    let Edge { a, b } = edge(0, 1);
    assert_eq!(rt; bad.audit(rt.alloc())?, Audit::Bad(Shape::Edge { a, b }));
    Ok(())
}

/// Does moves on the whole cube, an octree of one leaf.
fn moved(alloc: Global, mesh: &mut PlainMesh) -> Result<Entry, AllocError> {
    let low = at(-32768, -32768, -32768);
    let high = at(32767, 32767, 32767);
    let edits = [to(0, -1, -1, -1), to(9, 0, 0, 0)];
    let task = task_on(alloc, low, high, &edits)?;
    let cells = octree(alloc, 0, &[0])?;
    mesh.do_task(alloc, &cells, 1, &task)
}

#[test]
fn moves_the_corner_of_a_tetrahedron(rt: HostRuntime) -> Result<(), Fail> {
    let mut mesh = sample_mesh(rt.alloc(), Sample::Tetrahedron)?;
    let entry = moved(rt.alloc(), &mut mesh)?;
    assert!(rt; !entry.wide);
    assert_eq!(rt;
        entry.task.edits.slice(),
        [to(0, -1, -1, -1), to(9, 0, 0, 0)].as_slice()
    );
    assert_eq!(rt;
        entry.replies.slice(),
        [Reply::Done, Reply::Unheld(Name(9))].as_slice()
    );
    assert_eq!(rt; entry.core.slice(), [LeafNo(0)].as_slice());
    assert_eq!(rt; mesh.point(Name(0)), Some(at(-1, -1, -1)));
    Ok(())
}

#[test]
fn an_area_holds_the_points_of_its_leaves(rt: HostRuntime) -> Result<(), Fail> {
    let cells = octree(rt.alloc(), 1, &[0, 1])?;
    let core = core_leaves(rt.alloc(), &cells, &at(0, 0, 0), &at(9, 9, 9))?;
    assert_eq!(rt; core.slice(), [LeafNo(1)].as_slice());
    let area = Area::of(rt.alloc(), &cells, &core)?;
    assert!(rt; area.holds(&at(0, 7, 7)) && !area.holds(&at(-1, 7, 7)));
    Ok(())
}

#[test]
fn edits_stay_in_their_core(rt: HostRuntime) -> Result<(), Fail> {
    let mut mesh = sample_mesh(rt.alloc(), Sample::TwoOctants)?;
    let cells = octree(rt.alloc(), 1, &[0, 1])?;
    let core = core_leaves(rt.alloc(), &cells, &at(0, 0, 0), &at(9, 9, 9))?;
    let area = Area::of(rt.alloc(), &cells, &core)?;
    for (edit, want) in [
        (to(3, 2, 2, 2), Reply::Unheld(Name(3))),
        (to(1, 2, 2, 2), Reply::Frozen(Name(1))),
        (to(0, -1, 0, 0), Reply::Outside),
        (to(0, 2, 2, 2), Reply::Done),
    ] {
        assert_eq!(rt; mesh.do_edit(rt.alloc(), &area, &edit)?, want);
    }
    assert_eq!(rt; mesh.point(Name(0)), Some(at(2, 2, 2)));
    Ok(())
}

#[test]
fn a_wide_task_changes_nothing(rt: HostRuntime) -> Result<(), Fail> {
    let mut mesh = sample_mesh(rt.alloc(), Sample::TwoOctants)?;
    let cells = octree(rt.alloc(), 1, &[0, 1])?;
    let both = task_on(rt.alloc(), at(-1, 0, 0), at(0, 0, 0), &[to(1, 0, 0, 0)])?;
    let wide = mesh.do_task(rt.alloc(), &cells, 1, &both)?;
    assert!(rt; wide.wide && wide.replies.is_empty() && wide.core.len() == 0);
    assert_eq!(rt; mesh.point(Name(1)), Some(at(1, 0, 0)));
    let done = mesh.do_task(rt.alloc(), &cells, 2, &both)?;
    assert_eq!(rt; done.core.slice(), [LeafNo(0), LeafNo(1)].as_slice());
    assert_eq!(rt; mesh.point(Name(1)), Some(at(0, 0, 0)));
    Ok(())
}

fn collapse(u: u32, v: u32, max: i128) -> Edit {
    Edit::Collapse {
        u: Name(u),
        v: Name(v),
        max,
    }
}

fn flip(a: u32, b: u32) -> Edit {
    Edit::Flip {
        a: Name(a),
        b: Name(b),
    }
}

/// What an edit answers where all vertices are held.
fn answer(alloc: Global, mesh: &mut PlainMesh, edit: &Edit) -> Result<Reply, AllocError> {
    let cells = octree(alloc, 0, &[0])?;
    let core = core_leaves(alloc, &cells, &at(0, 0, 0), &at(0, 0, 0))?;
    let area = Area::of(alloc, &cells, &core)?;
    mesh.do_edit(alloc, &area, edit)
}

/// Edits where all vertices are held, each sample's behind one another, what they answer, and the numbers that they leave.
#[test]
fn edits(rt: HostRuntime) -> Result<(), Fail> {
    let mut on = Sample::Empty;
    let mut mesh = sample_mesh(rt.alloc(), on)?;
    for (of, edit, want, left) in [
        (
            Sample::Octahedron,
            collapse(4, 0, 32767),
            Reply::Dear(32768),
            Counts(6, 8, 0, 2),
        ),
        (
            Sample::Octahedron,
            collapse(4, 0, 32768),
            Reply::DoneAt(32768),
            Counts(5, 6, 0, 2),
        ),
        (
            Sample::Tetrahedron,
            collapse(0, 1, 999999),
            Reply::Closed,
            Counts(4, 4, 0, 2),
        ),
        (
            Sample::Tetrahedron,
            flip(0, 1),
            Reply::Edge(Name(2), Name(3)),
            Counts(4, 4, 0, 2),
        ),
        (
            Sample::Square,
            collapse(0, 1, 9),
            Reply::Border,
            Counts(4, 2, 4, 1),
        ),
        (
            Sample::Square,
            flip(0, 1),
            Reply::Border,
            Counts(4, 2, 4, 1),
        ),
        (Sample::Square, flip(1, 2), Reply::Done, Counts(4, 2, 4, 1)),
        (Sample::Square, flip(1, 2), Reply::Apart, Counts(4, 2, 4, 1)),
        (
            Sample::DoublePyramid,
            collapse(0, 1, 0),
            Reply::Link(Name(2)),
            Counts(5, 6, 0, 2),
        ),
        (
            Sample::DoublePyramid,
            collapse(3, 0, 500000),
            Reply::DoneAt(419904),
            Counts(4, 4, 0, 2),
        ),
        (
            Sample::DoublePyramid,
            collapse(4, 0, 500000),
            Reply::Closed,
            Counts(4, 4, 0, 2),
        ),
        (
            Sample::DoublePyramid,
            collapse(3, 0, 1),
            Reply::Unheld(Name(3)),
            Counts(4, 4, 0, 2),
        ),
        (
            Sample::Fan,
            collapse(0, 0, 0),
            Reply::Same,
            Counts(5, 4, 4, 1),
        ),
        (
            Sample::Fan,
            collapse(0, 1, 0),
            Reply::Folds(tri(0, 2, 3)),
            Counts(5, 4, 4, 1),
        ),
        (
            Sample::Fan,
            collapse(0, 2, 0),
            Reply::DoneAt(0),
            Counts(4, 2, 4, 1),
        ),
        (
            Sample::LeaningPyramid,
            collapse(0, 1, 0),
            Reply::Link(Name(2)),
            Counts(5, 6, 0, 2),
        ),
    ] {
        if of != on {
            on = of;
            mesh = sample_mesh(rt.alloc(), of)?;
        }
        assert_eq!(rt; answer(rt.alloc(), &mut mesh, &edit)?, want);
        assert!(rt; audited(rt.alloc(), &mesh)? == Some(left));
    }
    Ok(())
}

#[test]
fn an_edit_leaves_its_triangles_and_planes(rt: HostRuntime) -> Result<(), Fail> {
    let mut square = sample_mesh(rt.alloc(), Sample::Square)?;
    assert_eq!(rt; answer(rt.alloc(), &mut square, &flip(1, 2))?, Reply::Done);
    let tris = [tri(0, 1, 3), tri(0, 3, 2)];
    assert_eq!(rt; square.tris(rt.alloc())?.slice(), tris.as_slice());
    let mut sphere = sample_mesh(rt.alloc(), Sample::Octahedron)?;
    let done = answer(rt.alloc(), &mut sphere, &collapse(4, 0, 32768))?;
    assert_eq!(rt; done, Reply::DoneAt(32768));
    assert_eq!(rt; sphere.planes(Name(0)).map(|planes| planes.len()), Some(8));
    Ok(())
}

fn simplify(max: i128, target: u32) -> Edit {
    Edit::Simplify { max, target }
}

/// The replies' steps and what is left, where it is that of a simplification.
fn told(reply: &Reply) -> Option<(&[Step], u32)> {
    match reply {
        Reply::Simplified { steps, left } => Some((steps.slice(), *left)),
        _ => None,
    }
}

fn step(u: u32, v: u32, cost: i128) -> Step {
    Step {
        u: Name(u),
        v: Name(v),
        cost,
    }
}

#[test]
fn simplifications(rt: HostRuntime) -> Result<(), Fail> {
    for (of, max, target, steps, left) in [
        (Sample::Octahedron, 32767, 6, &[][..], Counts(6, 8, 0, 2)),
        (
            Sample::Octahedron,
            40000,
            6,
            &[step(0, 2, 32768)][..],
            Counts(5, 6, 0, 2),
        ),
        (
            Sample::LeaningPyramid,
            1000,
            0,
            &[step(2, 3, 52)][..],
            Counts(4, 4, 0, 2),
        ),
        (Sample::Fan, 0, 0, &[step(0, 2, 0)][..], Counts(4, 2, 4, 1)),
    ] {
        let mut mesh = sample_mesh(rt.alloc(), of)?;
        let reply = answer(rt.alloc(), &mut mesh, &simplify(max, target))?;
        assert_eq!(rt; told(&reply), Some((steps, left.1)));
        assert!(rt; audited(rt.alloc(), &mesh)? == Some(left));
    }
    Ok(())
}

#[test]
fn a_task_goes_on_after_a_simplification(rt: HostRuntime) -> Result<(), Fail> {
    let mut mesh = sample_mesh(rt.alloc(), Sample::Octahedron)?;
    let cells = octree(rt.alloc(), 0, &[0])?;
    let edits = [simplify(40000, 6), to(0, 1, 1, 1)];
    let task = task_on(rt.alloc(), at(0, 0, 0), at(0, 0, 0), &edits)?;
    let entry = mesh.do_task(rt.alloc(), &cells, 1, &task)?;
    let replies = entry.replies.slice();
    assert_eq!(rt; replies.len(), 2);
    let steps = [step(0, 2, 32768)];
    assert_eq!(rt; told(&replies[0]), Some((steps.as_slice(), 6)));
    assert_eq!(rt; &replies[1], &Reply::Unheld(Name(0)));
    Ok(())
}
