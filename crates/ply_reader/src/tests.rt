//! Items from sources that give one byte at a take, and all. What is refused stands with the tests of both readers.

use super::{PlyReader, is_ply};
use mesh_data::{Name, Tri};
use mesh_items::{Item, Items};
use oemm_io::{MemSource, Source};
use oemm_limits::MOST_MESH_BYTES;
use oemm_lines::Lines;
use oemm_octree::Point;
use std::alloc::{AllocError, Global};
use std::test::Fail;

/// A triangle in big-endian numbers, with a property that is skipped.
const TRIANGLE: &[u8] =
    b"ply\nformat binary_big_endian 1.0\ncomment made by hand\nelement vertex 3\nproperty short x\nproperty short y\nproperty short z\nproperty float nx\nelement face 1\nproperty list uchar int vertex_index\nend_header\n\0\0\0\0\0\0\0\0\0\0\0\x04\0\0\0\0\0\0\0\0\0\0\0\x04\0\0\0\0\0\0\x03\0\0\0\0\0\0\0\x01\0\0\0\x02";

/// A reader of bytes, of which the source gives so many at a take.
fn reader(alloc: Global, text: &[u8], piece: usize) -> Result<PlyReader<MemSource>, AllocError> {
    let text = Vec::from_slice(alloc, text)?;
    let source = MemSource::new(text, Vec::new(alloc), piece.max(1));
    match Lines::new(alloc, source, MOST_MESH_BYTES, false) {
        Ok(lines) => Ok(PlyReader::new(lines)),
        Err((_, error)) => Err(error),
    }
}

#[test]
fn items(rt: HostRuntime) -> Result<(), Fail> {
    let items = [
        Item::Counts { v: 3, f: 1 },
        Item::Vertex(Point { x: 0, y: 0, z: 0 }),
        Item::Vertex(Point { x: 4, y: 0, z: 0 }),
        Item::Vertex(Point { x: 0, y: 4, z: 0 }),
        Item::Face(Tri {
            a: Name(0),
            b: Name(1),
            c: Name(2),
        }),
    ];
    for piece in [1, 1000] {
        let mut reader = reader(rt.alloc(), TRIANGLE, piece)?;
        for item in &items {
            assert_eq!(rt; reader.next(), Ok(Some(*item)));
        }
        assert_eq!(rt; reader.next(), Ok(None));
        let mut source = reader.into_source();
        assert_eq!(rt; source.take(&mut [0; 4]), Ok(0));
    }
    Ok(())
}

#[test]
fn first_bytes(rt: HostRuntime) {
    assert!(rt; is_ply(b"ply\n"));
    assert!(rt; is_ply(b"plyx"));
    assert!(rt; !is_ply(b"pl"));
    assert!(rt; !is_ply(b"OFF"));
}
