//! What the contracts leave to examples: meshes over octants as files, byte for byte, and what is told of sheets that are
//! of no mesh.

use super::*;
use mesh_data::{Name, Shape};
use mesh_out::Form;
use oemm_blobs::{Blobs, Key, MemBlobs};
use oemm_io::MemSink;
use oemm_octree::LeafNo;
use oemm_shelf::{Clash, Shelf, ShelfFault};
use std::alloc::Global;
use std::test::Fail;

/// The sheet of an octant: its vertices, each with its name and place, how many planes each has, and its faces.
#[derive(Clone, Copy)]
struct Row {
    leaf: u32,
    vertices: &'static [(u32, [i16; 3])],
    planes: u32,
    faces: &'static [[u32; 3]],
}

/// Two tetrahedra, in the first octant and in the last.
const TETRAHEDRA: [Row; 2] = [
    Row {
        leaf: 0,
        vertices: &[
            (4, [-10, -10, -10]),
            (5, [-6, -10, -10]),
            (6, [-10, -6, -10]),
            (7, [-10, -10, -6]),
        ],
        planes: 3,
        faces: &[[4, 5, 7], [4, 6, 5], [4, 7, 6], [5, 6, 7]],
    },
    Row {
        leaf: 7,
        vertices: &[
            (0, [10, 10, 10]),
            (1, [14, 10, 10]),
            (2, [10, 14, 10]),
            (3, [10, 10, 14]),
        ],
        planes: 3,
        faces: &[[0, 1, 3], [0, 2, 1], [0, 3, 2], [1, 2, 3]],
    },
];

const TETRAHEDRA_OFF: &str =
    "OFF\n8 8 0\n-10 -10 -10\n-6 -10 -10\n-10 -6 -10\n-10 -10 -6\n10 10 10\n14 10 10\n10 14 10\n10 10 14\n3 0 1 3\n3 0 2 1\n3 0 3 2\n3 1 2 3\n3 4 5 7\n3 4 6 5\n3 4 7 6\n3 5 6 7\n";

/// What is left of the octahedron where its upper corner, 4, is collapsed onto 0.
const PYRAMIDS: [Row; 4] = [
    Row {
        leaf: 3,
        vertices: &[(5, [0, 0, -4])],
        planes: 4,
        faces: &[[0, 3, 5], [0, 5, 2], [1, 2, 5], [1, 5, 3]],
    },
    Row {
        leaf: 5,
        vertices: &[(3, [0, -4, 0])],
        planes: 4,
        faces: &[[0, 1, 3]],
    },
    Row {
        leaf: 6,
        vertices: &[(1, [-4, 0, 0])],
        planes: 4,
        faces: &[[0, 2, 1]],
    },
    Row {
        leaf: 7,
        vertices: &[(0, [4, 0, 0]), (2, [0, 4, 0])],
        planes: 8,
        faces: &[],
    },
];

const PYRAMIDS_OFF: &str =
    "OFF\n5 6 0\n0 0 -4\n0 -4 0\n-4 0 0\n4 0 0\n0 4 0\n3 3 1 0\n3 3 0 4\n3 2 4 0\n3 2 0 1\n3 3 2 1\n3 3 4 2\n";

/// A triangle.
const TRIANGLE: [Row; 1] = [Row {
    leaf: 7,
    vertices: &[(3, [0, 0, 0]), (8, [4, 0, 0]), (9, [0, 4, 0])],
    planes: 1,
    faces: &[[3, 8, 9]],
}];

const TRIANGLE_HEAD: &str =
    "ply\nformat binary_little_endian 1.0\nelement vertex 3\nproperty short x\nproperty short y\nproperty short z\nelement face 1\nproperty list uchar int vertex_indices\nend_header\n";

const TRIANGLE_BODY: [u8; 31] = [
    0, 0, 0, 0, 0, 0, 4, 0, 0, 0, 0, 0, 0, 0, 4, 0, 0, 0, 3, 0, 0, 0, 0, 1, 0, 0, 0, 2, 0, 0, 0,
];

/// Puts numbers at the end, each of so many bytes, the lowest byte first.
fn put(out: &mut Vec<u8>, rows: &[(usize, i128)]) -> Result<(), Fail> {
    for (width, number) in rows {
        let all = number.to_le_bytes();
        let part = all.get(..*width).ok_or("no width")?;
        out.extend_from_slice(part)?;
    }
    Ok(())
}

fn put_three(out: &mut Vec<u8>, width: usize, numbers: [i128; 3]) -> Result<(), Fail> {
    let [a, b, c] = numbers;
    put(out, &[(width, a), (width, b), (width, c)])
}

/// The bytes of an index of 16 vertices, whose leaves are the octants.
fn index_bytes(alloc: Global) -> Result<Vec<u8>, Fail> {
    let mut out = b"OEMI".to_vec(alloc)?;
    put(
        &mut out,
        &[(2, 1), (4, 4), (4, 8), (4, 16), (4, 0), (4, 0), (4, 0)],
    )?;
    put(&mut out, &[(4, 8)])?;
    for n in [0u8, 1, 2, 3, 4, 5, 6, 7] {
        put(&mut out, &[(1, 1)])?;
        put_three(
            &mut out,
            1,
            [n % 2, n / 2 % 2, n / 4].map(|half: u8| i128::from(half)),
        )?;
    }
    Ok(out)
}

/// The bytes of a sheet, which has no near leaf. The sums of its quadrics are 0.
fn sheet_bytes(alloc: Global, row: &Row) -> Result<Vec<u8>, Fail> {
    let mut out = b"OEML".to_vec(alloc)?;
    put(&mut out, &[(2, 1), (4, i128::from(row.leaf))])?;
    for count in [row.vertices.len(), row.faces.len(), 0] {
        put(&mut out, &[(4, count as i128)])?;
    }
    for (name, at) in row.vertices {
        put(&mut out, &[(4, i128::from(*name))])?;
        put_three(&mut out, 2, at.map(|place: i16| i128::from(place)))?;
        put(&mut out, &[(4, i128::from(row.planes))])?;
        put(&mut out, &[(16, 0); 10])?;
    }
    for face in row.faces {
        put_three(&mut out, 4, face.map(|name: u32| i128::from(name)))?;
    }
    Ok(out)
}

fn key(leaf: u32) -> Key {
    Key::Leaf {
        leaf: LeafNo(leaf),
        version: 0,
    }
}

/// A store of eight leaves. Those that have no row have neither vertices nor faces.
fn store(alloc: Global, rows: &[Row]) -> Result<MemBlobs, Fail> {
    let mut blobs = MemBlobs::new(alloc);
    blobs.put(alloc, Key::Index, index_bytes(alloc)?.as_slice())?;
    for leaf in 0..8u32 {
        let empty = Row {
            leaf,
            vertices: &[],
            planes: 0,
            faces: &[],
        };
        blobs.put(alloc, key(leaf), sheet_bytes(alloc, &empty)?.as_slice())?;
    }
    for row in rows {
        blobs.put(alloc, key(row.leaf), sheet_bytes(alloc, row)?.as_slice())?;
    }
    Ok(blobs)
}

/// What is exported of a store into a sink whose call of this number fails.
fn exported(
    alloc: Global,
    blobs: MemBlobs,
    form: Form,
    failing: u64,
) -> Result<(MemSink, Result<(), ExportFault>), Fail> {
    let opened = Shelf::open(alloc, blobs, 0).ok();
    let (mut shelf, _) = opened.ok_or("the store isn't opened")?;
    let sink = MemSink::with_room(alloc, 99999, vec![in alloc; failing; 1]?, 100)?;
    Ok(export(alloc, &mut shelf, form, sink))
}

/// The bytes of a store's mesh.
fn file(alloc: Global, rows: &[Row], form: Form) -> Result<MemSink, Fail> {
    let (sink, done) = exported(alloc, store(alloc, rows)?, form, 0)?;
    match done {
        Ok(()) => Ok(sink),
        Err(_) => Err("the mesh isn't written")?,
    }
}

/// A store's sheets, and the OFF file of its mesh.
#[derive(Clone, Copy)]
struct Written {
    rows: &'static [Row],
    text: &'static str,
}

const FILES: [Written; 3] = [
    Written {
        rows: &TETRAHEDRA,
        text: TETRAHEDRA_OFF,
    },
    Written {
        rows: &PYRAMIDS,
        text: PYRAMIDS_OFF,
    },
    Written {
        rows: &[],
        text: "OFF\n0 0 0\n",
    },
];

#[test]
fn meshes_over_octants(rt: HostRuntime) -> Result<(), Fail> {
    let alloc = rt.alloc();
    for written in &FILES {
        let sink = file(alloc, written.rows, Form::Off)?;
        assert!(rt; sink.bytes() == written.text.as_bytes());
    }
    let sink = file(alloc, &TRIANGLE, Form::Ply)?;
    assert!(rt; sink.bytes().starts_with(TRIANGLE_HEAD.as_bytes()));
    assert!(rt; sink.bytes().ends_with(&TRIANGLE_BODY));
    assert_eq!(rt; sink.bytes().len(), TRIANGLE_HEAD.len() + 31);
    Ok(())
}

/// How the sheets of a store clash, and how many bytes were put before that was told.
fn clash(alloc: Global, rows: &[Row]) -> Result<(usize, Option<Clash>), Fail> {
    let (sink, done) = exported(alloc, store(alloc, rows)?, Form::Off, 0)?;
    let clash = match &done {
        Err(ExportFault::Shelf(ShelfFault::Clash(clash))) => Some(*clash),
        _ => None,
    };
    Ok((sink.bytes().len(), clash))
}

/// Two vertices with the planes of two meshes, and faces with names that no vertex has.
const TOO_MANY: Row = Row {
    leaf: 1,
    vertices: &[(9, [3, -3, -3]), (11, [4, -3, -3])],
    planes: 50331648,
    faces: &[[9, 12, 13], [10, 11, 14]],
};

const MISSING: Row = Row {
    leaf: 1,
    vertices: &[(9, [3, -3, -3]), (11, [4, -3, -3])],
    planes: 1,
    faces: &[[9, 12, 13], [10, 11, 14]],
};

const SECOND: Row = Row {
    leaf: 2,
    vertices: &[(3, [-3, 3, -3]), (5, [-3, 3, -4]), (9, [-3, 4, -3])],
    planes: 1,
    faces: &[],
};

const THIRD: Row = Row {
    leaf: 6,
    vertices: &[(5, [-3, 3, 3])],
    planes: 1,
    faces: &[],
};

/// Sheets, and how they clash.
#[derive(Clone, Copy)]
struct Clashing {
    rows: &'static [Row],
    clash: Clash,
}

const CLASHES: [Clashing; 3] = [
    Clashing {
        rows: &[TOO_MANY, SECOND, THIRD],
        clash: Clash::Twice { v: Name(5) },
    },
    Clashing {
        rows: &[TOO_MANY],
        clash: Clash::Planes { count: 100663296 },
    },
    Clashing {
        rows: &[MISSING],
        clash: Clash::Shape(Shape::Vertex { v: Name(12) }),
    },
];

#[test]
fn sheets_of_no_mesh(rt: HostRuntime) -> Result<(), Fail> {
    for sheets in &CLASHES {
        let told = clash(rt.alloc(), sheets.rows)?;
        assert_eq!(rt; told, (0, Some(sheets.clash)));
    }
    Ok(())
}

#[test]
fn faults_of_store_and_sink(rt: HostRuntime) -> Result<(), Fail> {
    let alloc = rt.alloc();
    let mut blobs = store(alloc, &TETRAHEDRA)?;
    blobs.erase(alloc, key(5))?;
    let (sink, done) = exported(alloc, blobs, Form::Off, 0)?;
    assert!(rt;
        matches!(&done, Err(ExportFault::Shelf(ShelfFault::Absent { key: at })) if *at == key(5))
    );
    assert_eq!(rt; sink.bytes().len(), 0);
    let mut blobs = store(alloc, &TETRAHEDRA)?;
    blobs.put(alloc, key(3), b"OEML")?;
    let (_, done) = exported(alloc, blobs, Form::Off, 0)?;
    assert!(rt;
        matches!(&done, Err(ExportFault::Shelf(ShelfFault::Damaged { key: at, .. })) if *at == key(3))
    );
    let mut blobs = store(alloc, &TETRAHEDRA)?;
    blobs.arm(vec![in alloc; 10u64; 1]?, Vec::new(alloc), Vec::new(alloc));
    let (_, done) = exported(alloc, blobs, Form::Off, 0)?;
    assert!(rt; matches!(&done, Err(ExportFault::Shelf(ShelfFault::Store))));
    let (sink, done) = exported(alloc, store(alloc, &TETRAHEDRA)?, Form::Off, 2)?;
    assert!(rt; matches!(&done, Err(ExportFault::Write)));
    assert_eq!(rt; sink.bytes().len(), 100);
    assert!(rt; TETRAHEDRA_OFF.as_bytes().starts_with(sink.bytes()));
    Ok(())
}
