//! Rows, and a long run of edits. `collapse_if` and `flip_if` test what an edit asks, and then make it.

ghost use Rattle.std.specs.Prelude.{◌≡◌, ◌+◌, ◌<◌, IfOk, IfSome, OnOk, true};
ghost use Rattle.mesh_data.specs.Edits.{collapsed_tris, flipped_tris};
ghost use Rattle.std.specs.List.{All};
ghost use Rattle.oemm_lists.specs.Ascending.{IsAboveLast};
ghost use Rattle.mesh_data.specs.Triangles.{IsProper};
ghost use Rattle.half_edge.specs.Meshes.{is_held};

use super::*;
use link_test::{Link, verdict};
use mesh_data::{Name, NameSet, Shape, Tri};
use oemm_lists::Copied;
use std::alloc::{AllocError, Global};
use std::collections::BTreeSet;
use std::test::Fail;
use triangle_edits::flipped_tris;
use triangle_lists::turned_tri;

const OCTAHEDRON: [[u32; 3]; 8] = [
    [0, 2, 4],
    [2, 1, 4],
    [1, 3, 4],
    [3, 0, 4],
    [2, 0, 5],
    [1, 2, 5],
    [3, 1, 5],
    [0, 3, 5],
];

/// Collapses u onto v, if both are held and in a triangle, and the link condition holds.
fn collapse_if(mesh: &mut HalfMesh, alloc: Global, u: Name, v: Name) -> Result<bool, AllocError>
    ensures { IfOk result (λ done. done ≡ true → mesh.new.tris ≡ collapsed_tris u v mesh.old.tris) }
{
    if u == v || !mesh.has(u) || !mesh.has(v) {
        return Ok(false);
    }
    let (ahead, _) = mesh.apexes(u, v);
    let of_u = mesh.ring(alloc, u)?;
    let of_v = mesh.ring(alloc, v)?;
    if ahead.is_none() || !of_u.closed {
        return Ok(false);
    }
    match verdict(of_u.names.slice(), of_v.names.slice(), of_v.closed, u, v) {
        Link::Good => mesh.collapse(u, v),
        _ => return Ok(false),
    }
    Ok(true)
}

/// Flips the edge of a and b, if both are held and in a triangle, and the edge has two triangles whose other names are
/// no neighbours, and gives those.
fn flip_if(mesh: &mut HalfMesh, a: Name, b: Name) -> Option<(Name, Name)>
    ensures { IfSome result (λ ends. mesh.new.tris ≡ flipped_tris a b ends.0 ends.1 mesh.old.tris) }
{
    if a == b || !mesh.has(a) || !mesh.has(b) {
        return None;
    }
    let (ahead, behind) = mesh.apexes(a, b);
    let c = ahead?;
    let d = behind?;
    let (from_c, from_d) = mesh.apexes(c, d);
    if c == d || from_c.is_some() || from_d.is_some() {
        return None;
    }
    mesh.flip(a, b);
    Some((c, d))
}

/// The triangles of three different names among these.
fn tris(alloc: Global, faces: &[[u32; 3]]) -> Result<Vec<Tri>, AllocError>
    ensures { IfOk result (λ ts. All IsProper ts.items) }
{
    let mut tris = Vec::new(alloc);
    for f in faces {
        let (a, b, c) = (Name(f[0]), Name(f[1]), Name(f[2]));
        if a != b && b != c && c != a {
            tris.push(Tri { a, b, c })?;
        }
    }
    Ok(tris)
}

/// Puts a name at the end, if it isn't the one that is left out.
fn push_but(held: &mut NameSet, v: u32, out: u32) -> Result<(), AllocError>
    requires { IsAboveLast v held.old }
    ensures { OnOk result (IsAboveLast (v + 1) held.new) }
{
    if v != out && held.push(Name(v)).is_err() {
        return Err(AllocError);
    }
    Ok(())
}

/// The names from 0 on, so many, but one.
fn all_but(alloc: Global, names: u32, out: u32) -> Result<NameSet, AllocError> {
    let mut held = NameSet::new(alloc);
    for v in 0..names {
        push_but(&mut held, v, out)?;
    }
    Ok(held)
}

/// The half-edges of these triangles for the held names from 0 on, so many, but one.
fn mesh_of(alloc: Global, faces: &[Tri], names: u32, out: u32) -> Result<HalfMesh, HalfFault>
    requires { All IsProper faces.now }
{
    let held = all_but(alloc, names, out)?;
    HalfMesh::of_faces(alloc, faces, &held)
}

/// Whether the names are these, from some name on round and round.
fn is_round(names: &[Name], want: &[u32]) -> bool {
    let Some(shift) = names.iter().position(|v| Some(&v.0) == want.first()) else {
        return want.is_empty();
    };
    names.len() == want.len()
        && names
            .iter()
            .skip(shift)
            .chain(names.iter().take(shift))
            .zip(want)
            .all(|(v, w)| v.0 == *w)
}

#[test]
fn the_octahedron(rt: HostRuntime) -> Result<(), Fail> {
    let faces = tris(rt.alloc(), &OCTAHEDRON[..])?;
    let mut mesh = mesh_of(rt.alloc(), faces.as_slice(), 6, 6)?;
    for (v, want) in [
        (0, [2, 4, 3, 5]),
        (1, [4, 2, 5, 3]),
        (2, [4, 0, 5, 1]),
        (4, [0, 2, 1, 3]),
    ] {
        assert!(rt; mesh.has(Name(v)), "{v}");
        let ring = mesh.ring(rt.alloc(), Name(v))?;
        assert!(rt; ring.closed, "{v}");
        assert!(rt; is_round(ring.names.slice(), &want[..]), "{v}");
        assert!(rt; !mesh.is_border(Name(v)), "{v}");
    }
    assert!(rt; !mesh.has(Name(6)));
    assert_eq!(rt;
        mesh.apexes(Name(0), Name(2)),
        (Some(Name(4)), Some(Name(5)))
    );
    assert_eq!(rt; mesh.apexes(Name(0), Name(1)), (None, None));
    assert_eq!(rt; mesh.apexes(Name(6), Name(0)), (None, None));
    let whole = mesh.faces(rt.alloc())?;
    let before = mesh.copy(rt.alloc())?;
    assert!(rt; collapse_if(&mut mesh, rt.alloc(), Name(4), Name(0))?);
    assert!(rt; before.has(Name(4)));
    assert_eq!(rt; before.faces(rt.alloc())?.slice(), whole.slice());
    let want = [
        [0, 1, 3],
        [0, 2, 1],
        [0, 3, 5],
        [0, 5, 2],
        [1, 2, 5],
        [1, 5, 3],
    ];
    assert_eq!(rt;
        mesh.faces(rt.alloc())?.slice(),
        tris(rt.alloc(), &want[..])?.as_slice()
    );
    assert!(rt; !mesh.has(Name(4)));
    Ok(())
}

#[test]
fn each_edge_of_the_octahedron_flipped(rt: HostRuntime) -> Result<(), Fail> {
    let faces = tris(rt.alloc(), &OCTAHEDRON[..])?;
    for t in &faces {
        for (a, b) in [(t.a, t.b), (t.b, t.c), (t.c, t.a)] {
            let mut mesh = mesh_of(rt.alloc(), faces.as_slice(), 6, 6)?;
            let before = mesh.faces(rt.alloc())?;
            match flip_if(&mut mesh, a, b) {
                Some((c, d)) => {
                    let want = flipped_tris(rt.alloc(), before.slice(), a, b, c, d)?;
                    assert_eq!(rt;
                        mesh.faces(rt.alloc())?.slice(),
                        want.as_slice(),
                        "{a:?} {b:?}"
                    );
                }
                None => assert!(rt; false, "{a:?} {b:?}"),
            }
        }
    }
    Ok(())
}

#[test]
fn borders_and_unheld_names(rt: HostRuntime) -> Result<(), Fail> {
    let strip = tris(rt.alloc(), &[[0, 1, 2], [2, 1, 3], [2, 3, 4]])?;
    let mesh = mesh_of(rt.alloc(), strip.as_slice(), 5, 4)?;
    assert!(rt; !mesh.has(Name(4)));
    for (v, want) in [
        (0, &[1, 2][..]),
        (1, &[3, 2, 0][..]),
        (2, &[0, 1, 3, 4][..]),
        (3, &[4, 2, 1][..]),
    ] {
        assert!(rt; mesh.has(Name(v)), "{v}");
        let ring = mesh.ring(rt.alloc(), Name(v))?;
        assert!(rt; !ring.closed && mesh.is_border(Name(v)), "{v}");
        assert!(rt; is_round(ring.names.slice(), want), "{v}");
    }
    assert_eq!(rt;
        mesh.apexes(Name(3), Name(2)),
        (Some(Name(1)), Some(Name(4)))
    );
    assert_eq!(rt; mesh.apexes(Name(4), Name(2)), (Some(Name(3)), None));
    assert_eq!(rt; mesh.apexes(Name(1), Name(0)), (None, Some(Name(2))));
    Ok(())
}

#[test]
fn bad_faces(rt: HostRuntime) -> Result<(), Fail> {
    let fans = [[0, 1, 2], [0, 3, 4], [1, 5, 2]];
    let twice = [[0, 1, 2], [0, 3, 4], [5, 6, 7], [5, 6, 8]];
    for (faces, unheld, want) in [
        (&fans[..], 0, None),
        (&fans[..], 9, Some(Shape::Vertex { v: Name(0) })),
        (&fans[..], 3, Some(Shape::Vertex { v: Name(0) })),
        (
            &twice[..],
            5,
            Some(Shape::Edge {
                a: Name(5),
                b: Name(6),
            }),
        ),
        (
            &[[3, 1, 2], [2, 1, 3]][..],
            1,
            Some(Shape::Vertex { v: Name(2) }),
        ),
    ] {
        let bad = tris(rt.alloc(), faces)?;
        let told = match mesh_of(rt.alloc(), bad.as_slice(), 9, unheld).err() {
            None => None,
            Some(HalfFault::Bad(shape)) => Some(shape),
            Some(HalfFault::Memory) => return Err(Fail::from(AllocError)),
        };
        assert_eq!(rt; told, want, "{faces:?} {unheld}");
    }
    Ok(())
}

#[test]
fn the_double_pyramid(rt: HostRuntime) -> Result<(), Fail> {
    let pyramid = [
        [0, 1, 3],
        [1, 2, 3],
        [2, 0, 3],
        [1, 0, 4],
        [2, 1, 4],
        [0, 2, 4],
    ];
    let faces = tris(rt.alloc(), &pyramid[..])?;
    let mut mesh = mesh_of(rt.alloc(), faces.as_slice(), 5, 5)?;
    assert!(rt; !collapse_if(&mut mesh, rt.alloc(), Name(0), Name(1))?);
    assert_eq!(rt; flip_if(&mut mesh, Name(3), Name(0)), None);
    assert!(rt; collapse_if(&mut mesh, rt.alloc(), Name(3), Name(0))?);
    let want = [[0, 1, 2], [0, 2, 4], [0, 4, 1], [1, 4, 2]];
    assert_eq!(rt;
        mesh.faces(rt.alloc())?.slice(),
        tris(rt.alloc(), &want[..])?.as_slice()
    );
    assert!(rt; !collapse_if(&mut mesh, rt.alloc(), Name(4), Name(0))?);
    Ok(())
}

#[test]
fn a_vertex_of_valence_64(rt: HostRuntime) -> Result<(), Fail> {
    let mut fan = Vec::new(rt.alloc());
    for v in 1..65 {
        fan.push([0, v, v % 64 + 1])?;
    }
    let faces = tris(rt.alloc(), fan.as_slice())?;
    let mut mesh = mesh_of(rt.alloc(), faces.as_slice(), 65, 65)?;
    assert!(rt; mesh.has(Name(0)));
    let ring = mesh.ring(rt.alloc(), Name(0))?;
    assert!(rt; ring.closed);
    assert_eq!(rt; ring.names.slice().len(), 64);
    assert!(rt; collapse_if(&mut mesh, rt.alloc(), Name(0), Name(1))?);
    assert!(rt; mesh.has(Name(1)));
    assert_eq!(rt; mesh.ring(rt.alloc(), Name(1))?.names.slice().len(), 63);
    assert!(rt; mesh.is_border(Name(1)));
    Ok(())
}

/// The number of rows and of columns of the torus: two triangles stand at each place.
const ROWS: u32 = 50;

const COLUMNS: u32 = 100;

/// The number of edits that are done on the torus.
const EDITS: usize = 20_000;

/// A number behind another, by a linear congruential generator (Knuth, "The art of computer programming", 1997).
fn next_number(number: u64) -> u64 {
    number
        .wrapping_mul(6_364_136_223_846_793_005)
        .wrapping_add(1_442_695_040_888_963_407)
}

/// A number below another, from the upper half of a random one.
fn below(number: u64, count: usize) -> usize
    requires { 0 < count }
    ensures { result < count }
{
    (number >> 32) as usize % count
}

fn torus(alloc: Global) -> Result<Vec<Tri>, AllocError>
    ensures { IfOk result (λ ts. All IsProper ts.items) }
{
    let mut faces = Vec::new(alloc);
    for i in 0..ROWS {
        for j in 0..COLUMNS {
            let (down, right) = ((i + 1) % ROWS, (j + 1) % COLUMNS);
            let here = i * COLUMNS + j;
            let across = down * COLUMNS + right;
            faces.push([here, down * COLUMNS + j, across])?;
            faces.push([here, across, i * COLUMNS + right])?;
        }
    }
    tris(alloc, faces.as_slice())
}

/// Puts v for u in the triangles round u, whose ring is closed and has these names, and drops the two that have both.
fn collapse_in(set: &mut BTreeSet<Tri>, ring: &[Name], u: Name, v: Name) -> Result<(), AllocError> {
    for i in 0..ring.len() {
        let (b, c) = (ring[i], ring[(i + 1) % ring.len()]);
        set.remove(&turned_tri(&Tri { a: u, b, c }));
        if b != v && c != v {
            set.insert(turned_tri(&Tri { a: v, b, c }))?;
        }
    }
    Ok(())
}

/// Turns the triangles (a, b, c) and (b, a, d) to (a, d, c) and (d, b, c).
fn flip_in(set: &mut BTreeSet<Tri>, a: Name, b: Name, c: Name, d: Name) -> Result<(), AllocError> {
    set.remove(&turned_tri(&Tri { a, b, c }));
    set.remove(&turned_tri(&Tri { a: b, b: a, c: d }));
    set.insert(turned_tri(&Tri { a, b: d, c }))?;
    set.insert(turned_tri(&Tri { a: d, b, c }))?;
    Ok(())
}

/// Tries an edit at u: a collapse onto a neighbour for one number of eight, else a flip. Where it is done, it is done
/// in the set of triangles too.
fn edit_both(
    mesh: &mut HalfMesh,
    set: &mut BTreeSet<Tri>,
    alloc: Global,
    u: Name,
    number: u64,
) -> Result<bool, AllocError> {
    if !mesh.has(u) {
        return Ok(false);
    }
    let ring = mesh.ring(alloc, u)?;
    let names = ring.names.slice();
    if names.is_empty() {
        return Ok(false);
    }
    let v = names[below(next_number(number), names.len())];
    if number >> 61 == 0 {
        let done = collapse_if(mesh, alloc, u, v)?;
        if done {
            collapse_in(set, names, u, v)?;
        }
        return Ok(done);
    }
    match flip_if(mesh, u, v) {
        Some((c, d)) => {
            flip_in(set, u, v, c, d)?;
            Ok(true)
        }
        None => Ok(false),
    }
}

#[test]
fn random_edits_of_a_torus(rt: HostRuntime) -> Result<(), Fail> {
    let faces = torus(rt.alloc())?;
    let names = ROWS * COLUMNS;
    let mut mesh = mesh_of(rt.alloc(), faces.as_slice(), names, names)?;
    let mut set = BTreeSet::new(rt.alloc());
    for t in &faces {
        set.insert(turned_tri(t))?;
    }
    let mut number = 1;
    let mut done: usize = 0;
    for _i in 0..EDITS * 20 {
        number = next_number(number);
        let u = Name((number >> 32) as u32 % names);
        if done < EDITS && edit_both(&mut mesh, &mut set, rt.alloc(), u, number)? {
            done += 1;
        }
    }
    let want = set.iter().copied().collect::<Vec<Tri>>(rt.alloc())?;
    assert_eq!(rt; done, EDITS);
    assert_eq!(rt; mesh.faces(rt.alloc())?.slice(), want.as_slice());
    Ok(())
}
