ghost use Rattle.std.specs.Prelude.{◌≡◌, ◌<◌, ◌^◌, length, true, OnOk};
ghost use Rattle.std.specs.List.{All};
ghost use Rattle.mesh_data.specs.Triangles.{IsBelow};

use crate::{Form, MeshOut, OutFault, renumber, write_mesh};
use mesh_data::{Name, NameSet, Tri};
use oemm_io::{Failed, MemSink, Sink};
use oemm_octree::Point;
use std::alloc::{AllocError, Global};
use std::test::Fail;

const HEAD: &[u8] =
    b"ply\nformat binary_little_endian 1.0\nelement vertex 3\nproperty short x\nproperty short y\nproperty short z\nelement face 1\nproperty list uchar int vertex_indices\nend_header\n";

const BODY: [u8; 31] = [
    0, 0, 0, 0, 0, 0, 4, 0, 0, 0, 0, 0, 0, 0, 4, 0, 0, 0, 3, 0, 0, 0, 0, 1, 0, 0, 0, 2, 0, 0, 0,
];

const OFF: &[u8] = b"OFF\n3 1 0\n0 0 0\n4 0 0\n0 4 0\n3 0 1 2\n";

fn point(x: i16, y: i16, z: i16) -> Point {
    Point { x, y, z }
}

fn tri(a: u32, b: u32, c: u32) -> Tri {
    Tri {
        a: Name(a),
        b: Name(b),
        c: Name(c),
    }
}

fn is_off(alloc: Global, points: &[Point], faces: &[Tri], text: &str) -> Result<bool, Fail> {
    let (sink, done) = written(alloc, Form::Off, points, faces, 0)?;
    Ok(done.is_ok() && sink.bytes() == text.as_bytes())
}

#[test]
fn off_files(rt: HostRuntime) -> Result<(), Fail> {
    let tetrahedron = [
        point(-1, -1, -1),
        point(4, 0, 0),
        point(0, 4, 0),
        point(0, 0, 4),
    ];
    let faces = [tri(0, 1, 3), tri(0, 2, 1), tri(0, 3, 2), tri(1, 2, 3)];
    let corner = [point(-32768, 32767, 10)];
    assert!(rt; is_off(rt.alloc(), &[], &[], "OFF\n0 0 0\n")?);
    assert!(rt;
        is_off(
            rt.alloc(),
            &tetrahedron,
            &faces,
            "OFF\n4 4 0\n-1 -1 -1\n4 0 0\n0 4 0\n0 0 4\n3 0 1 3\n3 0 2 1\n3 0 3 2\n3 1 2 3\n"
        )?
    );
    assert!(rt; is_off(rt.alloc(), &corner, &[], "OFF\n1 0 0\n-32768 32767 10\n")?);
    Ok(())
}

#[test]
fn positions_of_names_with_gaps(rt: HostRuntime) -> Result<(), Fail> {
    let mut names = NameSet::new(rt.alloc());
    names.push(Name(2))?;
    names.push(Name(5))?;
    names.push(Name(9))?;
    let tris = [tri(2, 5, 9), tri(0, 7, 4294967295)];
    let renumbered = renumber(rt.alloc(), &names, &tris)?;
    assert_eq!(rt; renumbered.slice(), [tri(0, 1, 2), tri(0, 2, 3)].as_slice());
    Ok(())
}

fn put_triangle<O: Sink>(out: &mut MeshOut<O>) -> Result<(), Failed>
    requires vertices { out.old.plan.vertices ≡ 3 }
    requires faces { out.old.plan.faces ≡ 1 }
    ensures vertices { OnOk result (out.new.plan.vertices ≡ 0) }
    ensures faces { OnOk result (out.new.plan.faces ≡ 0) }
{
    out.vertex(point(0, 0, 0))?;
    out.vertex(point(4, 0, 0))?;
    out.vertex(point(0, 4, 0))?;
    out.face(0, 1, 2)
}

fn triangle<O: Sink>(alloc: Global, sink: O, form: Form) -> (O, Result<(), OutFault>) {
    let mut out = match MeshOut::new(alloc, sink, form, 3, 1) {
        Ok(out) => out,
        Err((sink, fault)) => return (sink, Err(fault)),
    };
    if let Err(fault) = put_triangle(&mut out) {
        return (out.into_sink(), Err(OutFault::from(fault)));
    }
    let (sink, done) = out.end();
    (sink, done.map_err(OutFault::from))
}

#[test]
fn a_triangle_step_by_step(rt: HostRuntime) -> Result<(), Fail> {
    for (piece, failing, wanted, held) in [
        (1, 0u64, Ok(()), 36),
        (7, 0, Ok(()), 36),
        (7, 1, Err(OutFault::Write), 0),
        (7, 2, Err(OutFault::Write), 7),
        (99, 2, Err(OutFault::Write), 36),
    ] {
        let failing = vec![in rt.alloc(); failing]?;
        let sink = MemSink::with_room(rt.alloc(), 99, failing, piece)?;
        let (sink, done) = triangle(rt.alloc(), sink, Form::Off);
        assert_eq!(rt; done, wanted);
        assert_eq!(rt; sink.bytes().len(), held);
        assert!(rt; OFF.starts_with(sink.bytes()));
    }
    Ok(())
}

#[test]
fn a_triangle_in_ply(rt: HostRuntime) -> Result<(), Fail> {
    let sink = MemSink::with_room(rt.alloc(), 300, Vec::new(rt.alloc()), 99)?;
    let (sink, done) = triangle(rt.alloc(), sink, Form::Ply);
    assert_eq!(rt; done, Ok(()));
    assert_eq!(rt; sink.bytes().len(), 200);
    assert!(rt; sink.bytes().starts_with(HEAD));
    assert!(rt; sink.bytes().ends_with(&BODY));
    Ok(())
}

fn are_indices(faces: &[Tri]) -> bool
    ensures { result ≡ true → All (IsBelow (2 ^ 31)) faces.now }
{
    faces
        .iter()
        .all(|t| t.a.0 < 1 << 31 && t.b.0 < 1 << 31 && t.c.0 < 1 << 31)
}

/// A sink that fails at this call, and how a mesh was written to it.
fn written(
    alloc: Global,
    form: Form,
    points: &[Point],
    faces: &[Tri],
    failing: u64,
) -> Result<(MemSink, Result<(), OutFault>), Fail> {
    if points.len() > 9999 || faces.len() > 9999 || !are_indices(faces) {
        return Err(Fail::from("no mesh for a test"));
    }
    let sink = MemSink::with_room(alloc, 99999, vec![in alloc; failing]?, 9999)?;
    Ok(write_mesh(alloc, sink, form, points, faces))
}

#[test]
fn signs_and_sizes_in_ply(rt: HostRuntime) -> Result<(), Fail> {
    let points = [point(-1, -32768, 258)];
    let faces = [tri(0, 66051, 2147483647)];
    let (sink, done) = written(rt.alloc(), Form::Ply, &points, &faces, 0)?;
    assert_eq!(rt; done, Ok(()));
    assert!(rt;
        sink.bytes().ends_with(&[
            10, 255, 255, 0, 128, 2, 1, 3, 0, 0, 0, 0, 3, 2, 1, 0, 255, 255, 255, 127
        ])
    );
    Ok(())
}

#[test]
fn no_vertex_and_no_face(rt: HostRuntime) -> Result<(), Fail> {
    let (off, done) = written(rt.alloc(), Form::Off, &[], &[], 0)?;
    assert_eq!(rt; done, Ok(()));
    assert_eq!(rt; off.bytes(), b"OFF\n0 0 0\n".as_slice());
    let (ply, done) = written(rt.alloc(), Form::Ply, &[], &[], 0)?;
    assert_eq!(rt; done, Ok(()));
    assert_eq!(rt; ply.bytes().len(), 169);
    assert!(rt; ply.bytes().ends_with(b"int vertex_indices\nend_header\n"));
    Ok(())
}

fn many_points(alloc: Global) -> Result<Vec<Point>, AllocError> {
    let mut points = Vec::new(alloc);
    for x in -3000..3000i16 {
        points.push(point(x, 7, x))?;
    }
    Ok(points)
}

#[test]
fn more_than_a_block(rt: HostRuntime) -> Result<(), Fail> {
    let points = many_points(rt.alloc())?;
    let faces = [tri(0, 1, 2), tri(0, 2, 5999)];
    let (all, _) = written(rt.alloc(), Form::Off, &points, &faces, 0)?;
    let whole = all.bytes().len();
    assert!(rt; whole > 65536);
    for (failing, wanted, held) in [
        (0, Ok(()), whole),
        (3, Err(OutFault::Write), 19998),
        (9, Err(OutFault::Write), whole),
    ] {
        let (sink, done) = written(rt.alloc(), Form::Off, &points, &faces, failing)?;
        assert_eq!(rt; done, wanted);
        assert_eq!(rt; sink.bytes().len(), held);
        assert!(rt; all.bytes().starts_with(sink.bytes()));
    }
    Ok(())
}

fn put_again_where_refused<O: Sink>(out: &mut MeshOut<O>, points: &[Point]) -> Result<(), Failed>
    requires { out.old.plan.vertices ≡ length points.now }
    ensures vertices { OnOk result (out.new.plan.vertices ≡ 0) }
    ensures faces { OnOk result (out.new.plan.faces ≡ out.old.plan.faces) }
{
    for p in points {
        if out.vertex(*p).is_err() {
            out.vertex(*p)?;
        }
    }
    Ok(())
}

fn written_patiently<O: Sink>(alloc: Global, sink: O, points: &[Point]) -> (O, bool)
    requires { length points.now < 2 ^ 32 }
{
    let mut out = match MeshOut::new(alloc, sink, Form::Off, points.len() as u32, 0) {
        Ok(out) => out,
        Err((sink, _)) => return (sink, false),
    };
    if put_again_where_refused(&mut out, points).is_err() {
        return (out.into_sink(), false);
    }
    let (sink, done) = out.end();
    (sink, done.is_ok())
}

#[test]
fn a_refused_vertex_is_written_later(rt: HostRuntime) -> Result<(), Fail> {
    let points = many_points(rt.alloc())?;
    assert_eq!(rt; points.len(), 6000);
    let sink = MemSink::with_room(rt.alloc(), 99999, vec![in rt.alloc(); 3u64]?, 9999)?;
    let (sink, done) = written_patiently(rt.alloc(), sink, &points);
    assert!(rt; done);
    let (whole, _) = written(rt.alloc(), Form::Off, &points, &[], 0)?;
    assert!(rt; sink.bytes() == whole.bytes());
    Ok(())
}
