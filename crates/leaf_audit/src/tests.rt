//! What the contracts leave to examples: that the definitions say of stores what is meant, and that calls succeed.

use super::*;
use mesh_data::{Audit, Name, Shape};
use oemm_blobs::{Blobs, Key, MemBlobs};
use oemm_octree::LeafNo;
use oemm_shelf::{Clash, Shelf, ShelfFault};
use std::alloc::Global;
use std::test::Fail;

/// The head of an index of 16 vertices, with cap 3 and core limit 64, whose other counts are 0, and whose leaves are the
/// octants. The cells come behind it.
const INDEX_HEAD: [u8; 34] = [
    0x4f, 0x45, 0x4d, 0x49, 1, 0, 3, 0, 0, 0, 64, 0, 0, 0, 16, 0, 0, 0, 0, 0, 0, 0, 0, 0, 0, 0, 0,
    0, 0, 0, 8, 0, 0, 0,
];

const SHEET_HEAD: [u8; 6] = [0x4f, 0x45, 0x4d, 0x4c, 1, 0];

const MOST_PLANES: i128 = 3 << 24;

/// What stands in the sheet of a leaf: the names of its vertices, how many planes each has, and its faces.
type Row = (u8, &'static [u8], i128, &'static [[u8; 3]]);

/// Puts numbers at the end, each of so many bytes, the lowest byte first.
fn put(out: &mut Vec<u8>, rows: &[(usize, i128)]) -> Result<(), Fail> {
    for (width, number) in rows {
        let all = number.to_le_bytes();
        let part = all.get(..*width).ok_or("no width")?;
        out.extend_from_slice(part)?;
    }
    Ok(())
}

/// A place in the upper or the lower half of an axis, as a bit of an octant's number says.
fn half(bit: u8) -> i128 {
    if bit == 0 { -9 } else { 9 }
}

fn index(alloc: Global) -> Result<Vec<u8>, Fail> {
    let mut out = INDEX_HEAD.to_vec(alloc)?;
    for leaf in 0..8u8 {
        out.extend_from_slice(&[1, leaf & 1, leaf >> 1 & 1, leaf >> 2 & 1])?;
    }
    Ok(out)
}

/// The bytes of a sheet, which has no near leaf. The sums of its quadrics are 0.
fn sheet(alloc: Global, row: &Row) -> Result<Vec<u8>, Fail> {
    let (leaf, names, planes, faces) = *row;
    let mut out = SHEET_HEAD.to_vec(alloc)?;
    put(&mut out, &[(4, i128::from(leaf)), (4, names.len() as i128)])?;
    put(&mut out, &[(4, faces.len() as i128), (4, 0)])?;
    for name in names {
        put(&mut out, &[(4, i128::from(*name)), (2, half(leaf & 1))])?;
        put(
            &mut out,
            &[(2, half(leaf & 2)), (2, half(leaf & 4)), (4, planes)],
        )?;
        put(&mut out, &[(16, 0); 10])?;
    }
    for face in faces {
        put(&mut out, &face.map(|name: u8| (4, i128::from(name))))?;
    }
    Ok(out)
}

fn key(leaf: u8) -> Key {
    Key::Leaf {
        leaf: LeafNo(u32::from(leaf)),
        version: 0,
    }
}

/// A store of eight leaves. Those that have no row have neither vertices nor faces.
fn store(alloc: Global, rows: &[Row]) -> Result<MemBlobs, Fail> {
    let mut blobs = MemBlobs::new(alloc);
    blobs.put(alloc, Key::Index, index(alloc)?.as_slice())?;
    for leaf in 0..8u8 {
        let bytes = sheet(alloc, &(leaf, &[], 0, &[]))?;
        blobs.put(alloc, key(leaf), bytes.as_slice())?;
    }
    for row in rows {
        let bytes = sheet(alloc, row)?;
        blobs.put(alloc, key(row.0), bytes.as_slice())?;
    }
    Ok(blobs)
}

fn audit_of(alloc: Global, blobs: MemBlobs) -> Result<Result<Audit, ShelfFault>, Fail> {
    let opened = Shelf::open(alloc, blobs, 0).ok();
    let (mut shelf, _) = opened.ok_or("the store isn't opened")?;
    Ok(audit(alloc, &mut shelf))
}

/// The audit of a store, or how its sheets clash.
fn answer(alloc: Global, rows: &[Row]) -> Result<Result<Audit, Clash>, Fail> {
    let blobs = store(alloc, rows)?;
    match audit_of(alloc, blobs)? {
        Ok(audit) => Ok(Ok(audit)),
        Err(ShelfFault::Clash(clash)) => Ok(Err(clash)),
        Err(fault) => Err(fault)?,
    }
}

fn good(vertices: u32, faces: u32, euler: i32, border: u32) -> Result<Audit, Clash> {
    Ok(Audit::Good {
        vertices,
        faces,
        euler,
        border,
    })
}

fn edge(a: u32, b: u32) -> Result<Audit, Clash> {
    Ok(Audit::Bad(Shape::Edge {
        a: Name(a),
        b: Name(b),
    }))
}

fn vertex(v: u32) -> Result<Audit, Clash> {
    Ok(Audit::Bad(Shape::Vertex { v: Name(v) }))
}

fn twice(v: u32) -> Result<Audit, Clash> {
    Err(Clash::Twice { v: Name(v) })
}

const OCTAHEDRON: &[Row] = &[
    (
        7,
        &[0, 2, 4],
        4,
        &[[0, 2, 4], [0, 3, 5], [0, 4, 3], [0, 5, 2]],
    ),
    (6, &[1], 4, &[[1, 2, 5], [1, 3, 4], [1, 4, 2], [1, 5, 3]]),
    (5, &[3], 4, &[]),
    (3, &[5], 4, &[]),
];

const FAN: &[Row] = &[
    (1, &[1, 3], 1, &[]),
    (2, &[4], 1, &[[3, 7, 4]]),
    (4, &[9], 1, &[[1, 3, 9]]),
    (6, &[7], 1, &[[1, 7, 3]]),
];

const TWO_EDGES: &[Row] = &[
    (0, &[7], 1, &[[7, 8, 9]]),
    (1, &[10], 1, &[[7, 8, 10]]),
    (5, &[1], 1, &[[1, 2, 3]]),
    (6, &[2], 1, &[[1, 2, 4]]),
];

const VERTEX_BEFORE_EDGE: &[Row] = &[
    (0, &[1], 1, &[[0, 1, 2]]),
    (2, &[5], 1, &[[5, 6, 7]]),
    (4, &[6], 1, &[[5, 6, 8]]),
    (7, &[0], 1, &[[0, 3, 4]]),
];

const TWO_BOW_TIES: &[Row] = &[
    (0, &[9], 1, &[[8, 9, 10]]),
    (1, &[8], 1, &[[8, 11, 12]]),
    (6, &[3], 1, &[[1, 2, 3]]),
    (7, &[1], 1, &[[1, 4, 5]]),
];

const BOTH_SIDES: &[Row] = &[(2, &[2], 1, &[[0, 1, 2]]), (4, &[1], 1, &[[0, 2, 1]])];

#[test]
fn faces_of_several_leaves(rt: HostRuntime) -> Result<(), Fail> {
    for (rows, want) in [
        (OCTAHEDRON, good(6, 8, 2, 0)),
        (FAN, good(5, 3, 1, 5)),
        (&[], good(0, 0, 0, 0)),
        (TWO_EDGES, edge(1, 2)),
        (VERTEX_BEFORE_EDGE, edge(5, 6)),
        (TWO_BOW_TIES, vertex(1)),
        (BOTH_SIDES, vertex(0)),
    ] {
        assert_eq!(rt; answer(rt.alloc(), rows)?, want, "{rows:?}");
    }
    Ok(())
}

const FACE_IN_TWO_SHEETS: &[Row] = &[(0, &[2], 1, &[[0, 1, 2]]), (3, &[0, 1], 1, &[[0, 1, 2]])];

const TWO_NAMES_TWICE: &[Row] = &[
    (0, &[4, 9], 1, &[[4, 5, 6], [4, 5, 7]]),
    (1, &[9], 1, &[]),
    (2, &[3], 1, &[]),
    (7, &[4], MOST_PLANES, &[]),
];

const AS_MANY_PLANES: &[Row] = &[(5, &[8], MOST_PLANES, &[])];

const MORE_PLANES: &[Row] = &[
    (2, &[3], 1, &[[1, 2, 3], [1, 2, 3]]),
    (4, &[5, 6], 7, &[]),
    (5, &[8], MOST_PLANES, &[]),
];

#[test]
fn sheets_that_are_of_no_mesh(rt: HostRuntime) -> Result<(), Fail> {
    for (rows, want) in [
        (FACE_IN_TWO_SHEETS, edge(0, 1)),
        (TWO_NAMES_TWICE, twice(4)),
        (AS_MANY_PLANES, good(1, 0, 1, 0)),
        (MORE_PLANES, Err(Clash::Planes { count: 50331663 })),
    ] {
        assert_eq!(rt; answer(rt.alloc(), rows)?, want, "{rows:?}");
    }
    Ok(())
}

const NAME_TWICE: &[Row] = &[(0, &[2], 1, &[]), (1, &[2], 1, &[])];

const SEVEN: Row = (3, &[7], 1, &[]);

#[test]
fn the_first_leaf_at_fault(rt: HostRuntime) -> Result<(), Fail> {
    let alloc = rt.alloc();
    let mut blobs = store(alloc, NAME_TWICE)?;
    blobs.erase(alloc, key(5))?;
    let absent = audit_of(alloc, blobs)?;
    assert!(rt; matches!(&absent, Err(ShelfFault::Absent { key: at }) if *at == key(5)));
    let mut blobs = store(alloc, NAME_TWICE)?;
    blobs.erase(alloc, key(5))?;
    let mut cut = sheet(alloc, &SEVEN)?;
    let _ = cut.pop();
    blobs.put(alloc, key(3), cut.as_slice())?;
    match audit_of(alloc, blobs)? {
        Err(ShelfFault::Damaged { key: at, bytes }) => {
            assert_eq!(rt; (at, bytes.slice()), (key(3), cut.as_slice()));
        }
        _ => return Err("another answer")?,
    }
    Ok(())
}

#[test]
fn a_store_that_fails(rt: HostRuntime) -> Result<(), Fail> {
    let alloc = rt.alloc();
    let mut blobs = store(alloc, &[])?;
    blobs.arm(vec![in alloc; 10u64; 1]?, Vec::new(alloc), Vec::new(alloc));
    let failed = audit_of(alloc, blobs)?;
    assert!(rt; matches!(&failed, Err(ShelfFault::Store)));
    Ok(())
}
