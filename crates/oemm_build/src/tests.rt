//! Stores that are built of small meshes: their bytes, what crashes leave of them, and each refusal.

ghost use Rattle.std.specs.Prelude.{◌≡◌, ◌≤◌, IfOk};
ghost use Rattle.oemm_limits.specs.declared.TheConstants.{MOST_CAP};
ghost use Rattle.mesh_items.specs.Reading.{nothing_given};
ghost use Rattle.off_reader.specs.Reader.{given_of};

use super::*;
use mesh_data::{Name, Shape};
use mesh_items::{MeshFault, MeshWhy};
use octahedron::{
    EMPTY, EMPTY_INDEX, EMPTY_SHEET, INDEX, OCTAHEDRON, SHEETS, TURNED_FACE, sheet_bytes,
};
use oemm_blobs::{Blobs, HistoryBlobs, Key, MemBlobs};
use oemm_io::MemSource;
use oemm_limits::{MOST_CAP, MOST_MESH_BYTES};
use oemm_lines::Lines;
use oemm_octree::LeafNo;
use oemm_shelf::ShelfFault;
use off_reader::OffReader;
use std::alloc::{AllocError, Global};
use std::test::Fail;

mod octahedron;

/// A reader of a text, whose source fails at this take, counted from 1.
fn reader(alloc: Global, text: &str, failing: u64) -> Result<OffReader<MemSource>, AllocError>
    ensures { IfOk result (λ items. given_of items.progress items.fault ≡ nothing_given) }
{
    let text = Vec::from_slice(alloc, text.as_bytes())?;
    let source = MemSource::new(text, vec![in alloc; failing]?, 16);
    match Lines::new(alloc, source, MOST_MESH_BYTES, true) {
        Ok(lines) => Ok(OffReader::new(lines)),
        Err((_, error)) => Err(error),
    }
}

/// Builds a store of a text, whose source fails at this take, with this cap; a task may check out 64 leaves.
fn build_text<B: Blobs + Drop>(
    alloc: Global,
    text: &str,
    failing: u64,
    blobs: B,
    cap: u32,
) -> Result<(B, Result<Built, BuildFault>), AllocError>
    requires least { 1 ≤ cap }
    requires most { cap ≤ MOST_CAP }
{
    let mut items = reader(alloc, text, failing)?;
    Ok(build(alloc, &mut items, blobs, cap, 64))
}

/// The key of a leaf's sheet in version 0.
fn sheet_key(leaf: u32) -> Key {
    Key::Leaf {
        leaf: LeafNo(leaf),
        version: 0,
    }
}

/// Whether a get of the key gives these bytes.
fn gives<B: Blobs>(alloc: Global, blobs: &mut B, key: Key, wanted: &[u8]) -> bool {
    match blobs.get(alloc, key) {
        Ok(Some(bytes)) => bytes.slice() == wanted,
        _ => false,
    }
}

/// Whether a get of the key gives None.
fn lacks<B: Blobs>(alloc: Global, blobs: &mut B, key: Key) -> bool {
    matches!(&blobs.get(alloc, key), Ok(None))
}

/// Whether the store has the index of the octahedron that is cut into octants, and its eight sheets.
fn has_octahedron<B: Blobs>(alloc: Global, blobs: &mut B) -> Result<bool, AllocError> {
    for sheet in &SHEETS {
        let wanted = sheet_bytes(alloc, sheet)?;
        if !gives(alloc, blobs, sheet_key(sheet.leaf), wanted.as_slice()) {
            return Ok(false);
        }
    }
    Ok(gives(alloc, blobs, Key::Index, INDEX))
}

/// Whether a crash before the last change leaves an index.
fn leaves_index_early(alloc: Global, blobs: &HistoryBlobs) -> Result<bool, AllocError> {
    for moment in 0..blobs.moments() {
        if blobs.left_at(alloc, moment, Key::Index)?.is_some() {
            return Ok(true);
        }
    }
    Ok(false)
}

/// Whether a store is built, of so many leaves.
fn has_leaves(answer: &Result<Built, BuildFault>, leaves: u32) -> bool {
    match answer {
        Ok(built) => built.leaves == leaves,
        Err(_) => false,
    }
}

/// Whether this fault of the items is answered.
fn is_of_items(answer: &Result<Built, BuildFault>, wanted: MeshFault) -> bool {
    match answer {
        Err(BuildFault::Mesh(fault)) => *fault == wanted,
        _ => false,
    }
}

/// Whether this is what the audit found.
fn is_shape(answer: &Result<Built, BuildFault>, wanted: Shape) -> bool {
    match answer {
        Err(BuildFault::Shape(shape)) => *shape == wanted,
        _ => false,
    }
}

/// Whether the store failed.
fn is_store(answer: &Result<Built, BuildFault>) -> bool {
    matches!(answer, Err(BuildFault::Shelf(ShelfFault::Store)))
}

#[test]
fn the_octahedron_is_built_into_octants(rt: HostRuntime) -> Result<(), Fail> {
    let alloc = rt.alloc();
    let (mut blobs, result) = build_text(alloc, OCTAHEDRON, 0, HistoryBlobs::new(alloc), 3)?;
    let wanted = Built {
        vertices: 6,
        faces: 8,
        euler: 2,
        border: 0,
        leaves: 8,
    };
    assert!(rt; matches!(&result, Ok(built) if *built == wanted));
    // Nine changes and nine keys: there is no other key, nor was there one before.
    assert_eq!(rt; blobs.moments(), 9);
    assert!(rt; has_octahedron(alloc, &mut blobs)?);
    assert!(rt; !leaves_index_early(alloc, &blobs)?);
    Ok(())
}

#[test]
fn the_empty_mesh_is_an_index_and_a_sheet(rt: HostRuntime) -> Result<(), Fail> {
    let alloc = rt.alloc();
    let (mut blobs, result) = build_text(alloc, EMPTY, 0, HistoryBlobs::new(alloc), 4096)?;
    assert!(rt; has_leaves(&result, 1));
    assert_eq!(rt; blobs.moments(), 2);
    assert!(rt; gives(alloc, &mut blobs, sheet_key(0), EMPTY_SHEET));
    assert!(rt; gives(alloc, &mut blobs, Key::Index, EMPTY_INDEX));
    Ok(())
}

#[test]
fn a_store_is_built_once(rt: HostRuntime) -> Result<(), Fail> {
    let alloc = rt.alloc();
    let mut blobs = MemBlobs::new(alloc);
    // An entry alone is no index, and stays as it is.
    assert_eq!(rt; blobs.put(alloc, Key::Entry(0), b"entry"), Ok(()));
    let (blobs, first) = build_text(alloc, OCTAHEDRON, 0, blobs, 3)?;
    assert!(rt; has_leaves(&first, 8));
    let (mut blobs, second) = build_text(alloc, EMPTY, 0, blobs, 4096)?;
    assert!(rt; matches!(&second, Err(BuildFault::AlreadyBuilt)));
    assert!(rt; has_octahedron(alloc, &mut blobs)?);
    assert!(rt; gives(alloc, &mut blobs, Key::Entry(0), b"entry"));
    Ok(())
}

#[test]
fn items_that_are_refused_leave_nothing(rt: HostRuntime) -> Result<(), Fail> {
    let alloc = rt.alloc();
    let mut blobs = MemBlobs::new(alloc);
    for (text, wanted) in [
        (
            TURNED_FACE,
            Shape::Edge {
                a: Name(0),
                b: Name(5),
            },
        ),
        (
            "OFF\n5 2 0\n0 0 0\n9 0 0\n0 9 0\n0 0 9\n-9 -9 -9\n3 0 1 2\n3 0 3 4\n",
            Shape::Vertex { v: Name(0) },
        ),
    ] {
        let (left, result) = build_text(alloc, text, 0, blobs, 1)?;
        blobs = left;
        assert!(rt; is_shape(&result, wanted));
        assert!(rt; lacks(alloc, &mut blobs, Key::Index));
        assert!(rt; lacks(alloc, &mut blobs, sheet_key(0)));
    }
    for (text, failing, wanted) in [
        (OCTAHEDRON, 2, MeshFault::Read),
        (
            "OFF\n1 0 0\n0 0\n",
            0,
            MeshFault::Text {
                at: 10,
                why: MeshWhy::Words,
            },
        ),
    ] {
        let (left, result) = build_text(alloc, text, failing, blobs, 3)?;
        blobs = left;
        assert!(rt; is_of_items(&result, wanted));
        assert!(rt; lacks(alloc, &mut blobs, Key::Index));
        assert!(rt; lacks(alloc, &mut blobs, sheet_key(0)));
    }
    let (mut blobs, result) = build_text(alloc, OCTAHEDRON, 0, blobs, 3)?;
    assert!(rt; has_leaves(&result, 8));
    assert!(rt; has_octahedron(alloc, &mut blobs)?);
    Ok(())
}

#[test]
fn a_store_that_fails_has_no_index(rt: HostRuntime) -> Result<(), Fail> {
    let alloc = rt.alloc();
    let mut blobs = MemBlobs::new(alloc);
    blobs.arm(vec![in alloc; 1]?, Vec::new(alloc), Vec::new(alloc));
    let (mut blobs, result) = build_text(alloc, OCTAHEDRON, 0, blobs, 3)?;
    assert!(rt; is_store(&result));
    for failing in 1..10 {
        blobs.arm(Vec::new(alloc), vec![in alloc; failing]?, Vec::new(alloc));
        let (left, result) = build_text(alloc, OCTAHEDRON, 0, blobs, 3)?;
        blobs = left;
        assert!(rt; is_store(&result));
        assert!(rt; lacks(alloc, &mut blobs, Key::Index));
    }
    let (mut blobs, result) = build_text(alloc, OCTAHEDRON, 0, blobs, 3)?;
    assert!(rt; has_leaves(&result, 8));
    assert!(rt; has_octahedron(alloc, &mut blobs)?);
    Ok(())
}

#[test]
fn caps_cut_as_far_as_they_ask(rt: HostRuntime) -> Result<(), Fail> {
    let alloc = rt.alloc();
    for (cap, leaves) in [(1, 43), (2, 43), (5, 8), (6, 1), (65536, 1)] {
        let cap = cap.min(MOST_CAP).max(1);
        let (_, result) = build_text(alloc, OCTAHEDRON, 0, MemBlobs::new(alloc), cap)?;
        assert!(rt; has_leaves(&result, leaves), "with cap {cap}");
    }
    Ok(())
}
