use super::*;
use mesh_data::{Name, Tri};
use std::alloc::{AllocError, Global};
use std::test::Fail;

const OCTAHEDRON: [[u32; 3]; 8] = [
    [0, 2, 4],
    [2, 1, 4],
    [1, 3, 4],
    [3, 0, 4],
    [2, 0, 5],
    [1, 2, 5],
    [3, 1, 5],
    [0, 3, 5],
];

const TETRAHEDRON: [[u32; 3]; 4] = [[0, 2, 1], [0, 1, 3], [0, 3, 2], [1, 2, 3]];

const TWO: [[u32; 3]; 2] = [[0, 1, 2], [1, 3, 2]];

const DOUBLE_PYRAMID: [[u32; 3]; 6] = [
    [0, 1, 3],
    [1, 2, 3],
    [2, 0, 3],
    [1, 0, 4],
    [2, 1, 4],
    [0, 2, 4],
];

fn tris(alloc: Global, faces: &[[u32; 3]]) -> Result<Vec<Tri>, AllocError> {
    faces
        .iter()
        .map(|f| Tri {
            a: Name(f[0]),
            b: Name(f[1]),
            c: Name(f[2]),
        })
        .collect(alloc)
}

/// The names of these triangles.
fn faces_of(alloc: Global, tris: &[Tri]) -> Result<Vec<[u32; 3]>, AllocError> {
    tris.iter().map(|t| [t.a.0, t.b.0, t.c.0]).collect(alloc)
}

fn collapsed(
    alloc: Global,
    faces: &[[u32; 3]],
    u: u32,
    v: u32,
) -> Result<Vec<[u32; 3]>, AllocError> {
    let tris = tris(alloc, faces)?;
    let left = collapsed_tris(alloc, tris.as_slice(), Name(u), Name(v))?;
    faces_of(alloc, left.as_slice())
}

/// The faces with the edge of these two names flipped, whose opposite names are the next two.
fn flipped(
    alloc: Global,
    faces: &[[u32; 3]],
    names: [u32; 4],
) -> Result<Vec<[u32; 3]>, AllocError> {
    let tris = tris(alloc, faces)?;
    let left = flipped_tris(
        alloc,
        tris.as_slice(),
        Name(names[0]),
        Name(names[1]),
        Name(names[2]),
        Name(names[3]),
    )?;
    faces_of(alloc, left.as_slice())
}

#[test]
fn neighbours(rt: HostRuntime) -> Result<(), Fail> {
    for (faces, u, v, want) in [
        (&OCTAHEDRON[..], 0, 2, true),
        (&OCTAHEDRON[..], 0, 1, false),
        (&TWO[..], 1, 2, true),
        (&TWO[..], 0, 3, false),
        (&TWO[..], 0, 9, false),
    ] {
        let tris = tris(rt.alloc(), faces)?;
        assert_eq!(rt;
            are_neighbours(tris.as_slice(), Name(u), Name(v)),
            want,
            "{u} {v}"
        );
    }
    Ok(())
}

#[test]
fn apexes(rt: HostRuntime) -> Result<(), Fail> {
    for (faces, a, b, want) in [
        (&OCTAHEDRON[..], 0, 2, Some(Name(4))),
        (&OCTAHEDRON[..], 2, 0, Some(Name(5))),
        (&OCTAHEDRON[..], 0, 1, None),
        (&TWO[..], 2, 1, Some(Name(3))),
        (&TWO[..], 2, 0, Some(Name(1))),
        (&TWO[..], 0, 2, None),
    ] {
        let tris = tris(rt.alloc(), faces)?;
        assert_eq!(rt; apex(tris.as_slice(), Name(a), Name(b)), want, "{a} {b}");
    }
    Ok(())
}

#[test]
fn first_of_two_apexes(rt: HostRuntime) -> Result<(), Fail> {
    let tris = tris(rt.alloc(), &[[3, 0, 1], [0, 1, 2]])?;
    assert_eq!(rt; apex(tris.as_slice(), Name(0), Name(1)), Some(Name(3)));
    Ok(())
}

#[test]
fn shared_names(rt: HostRuntime) -> Result<(), Fail> {
    for (faces, u, v, want) in [
        (&OCTAHEDRON[..], 0, 2, None),
        (&OCTAHEDRON[..], 0, 1, Some(Name(2))),
        (&TETRAHEDRON[..], 0, 1, None),
        (&TWO[..], 0, 1, None),
        (&DOUBLE_PYRAMID[..], 0, 1, Some(Name(2))),
        (&DOUBLE_PYRAMID[..], 3, 0, None),
    ] {
        let tris = tris(rt.alloc(), faces)?;
        let least = link_violation(rt.alloc(), tris.as_slice(), Name(u), Name(v))?;
        assert_eq!(rt; least, want, "{u} {v}");
    }
    Ok(())
}

#[test]
fn closed_by_three(rt: HostRuntime) -> Result<(), Fail> {
    for (faces, v, want) in [
        (&TETRAHEDRON[..], 0, true),
        (&OCTAHEDRON[..], 0, false),
        (&DOUBLE_PYRAMID[..], 3, true),
        (&DOUBLE_PYRAMID[..], 0, false),
        (&TWO[..], 1, false),
        (&TWO[..], 9, false),
    ] {
        let tris = tris(rt.alloc(), faces)?;
        let is_closed = is_closed_by_three(rt.alloc(), tris.as_slice(), Name(v))?;
        assert_eq!(rt; is_closed, want, "{v}");
    }
    Ok(())
}

#[test]
fn collapses(rt: HostRuntime) -> Result<(), Fail> {
    let octahedron = collapsed(rt.alloc(), &OCTAHEDRON[..], 4, 0)?;
    assert_eq!(rt;
        octahedron.as_slice(),
        &[
            [0, 1, 3],
            [0, 2, 1],
            [0, 3, 5],
            [0, 5, 2],
            [1, 2, 5],
            [1, 5, 3]
        ][..]
    );
    let pyramid = collapsed(rt.alloc(), &DOUBLE_PYRAMID[..], 3, 0)?;
    assert_eq!(rt;
        pyramid.as_slice(),
        &[[0, 1, 2], [0, 2, 4], [0, 4, 1], [1, 4, 2]][..]
    );
    Ok(())
}

#[test]
fn flips(rt: HostRuntime) -> Result<(), Fail> {
    let two = flipped(rt.alloc(), &TWO[..], [1, 2, 0, 3])?;
    assert_eq!(rt; two.as_slice(), &[[0, 1, 3], [0, 3, 2]][..]);
    let pyramid = flipped(rt.alloc(), &DOUBLE_PYRAMID[..], [0, 1, 3, 4])?;
    assert_eq!(rt;
        pyramid.as_slice(),
        &[
            [0, 2, 4],
            [0, 4, 3],
            [1, 2, 3],
            [1, 3, 4],
            [2, 0, 3],
            [2, 1, 4]
        ][..]
    );
    Ok(())
}
