//! Items from sources that give one byte at a take, and all. What is refused stands with the tests of both readers.

use super::OffReader;
use mesh_data::{Name, Tri};
use mesh_items::{Item, Items};
use oemm_io::{MemSource, Source};
use oemm_limits::MOST_MESH_BYTES;
use oemm_lines::Lines;
use oemm_octree::Point;
use std::alloc::{AllocError, Global};
use std::test::Fail;

/// A reader of bytes, of which the source gives so many at a take.
fn reader(alloc: Global, text: &[u8], piece: usize) -> Result<OffReader<MemSource>, AllocError> {
    let text = Vec::from_slice(alloc, text)?;
    let source = MemSource::new(text, Vec::new(alloc), piece.max(1));
    match Lines::new(alloc, source, MOST_MESH_BYTES, true) {
        Ok(lines) => Ok(OffReader::new(lines)),
        Err((_, error)) => Err(error),
    }
}

/// Texts of one triangle.
const TRIANGLES: [&[u8]; 3] = [
    b"OFF 3 1\n1 -2 32767\n-32768 0 7\n4 5 6\n3 2 0 1",
    b"#\r\n \t\nOFF#\n#b\r\n3\t1 0 seen#c\r\n\n 1.0 -2. +32767#\r\n-32768 -0 007 \xff\n\n4\t5 6\r\n\t3 2 00 +1 255 0\r\n",
    b"OFF\n3 1 0\n1 -2 32767 x\n-32768.0 0.000 7\r\n4 5 6#\n#\n03 +2 -0 0001 #\nrest",
];

#[test]
fn items(rt: HostRuntime) -> Result<(), Fail> {
    let items = [
        Item::Counts { v: 3, f: 1 },
        Item::Vertex(Point {
            x: 1,
            y: -2,
            z: 32767,
        }),
        Item::Vertex(Point {
            x: -32768,
            y: 0,
            z: 7,
        }),
        Item::Vertex(Point { x: 4, y: 5, z: 6 }),
        Item::Face(Tri {
            a: Name(2),
            b: Name(0),
            c: Name(1),
        }),
    ];
    for text in TRIANGLES {
        for piece in [1, 1000] {
            let mut reader = reader(rt.alloc(), text, piece)?;
            for item in &items {
                assert_eq!(rt; reader.next(), Ok(Some(*item)));
            }
            assert_eq!(rt; reader.next(), Ok(None));
        }
    }
    Ok(())
}

/// The byte that the source gives next.
fn next_byte(mut source: MemSource) -> Option<u8> {
    let mut buf = [0u8; 1];
    match source.take(&mut buf) {
        Ok(1) => Some(buf[0]),
        _ => None,
    }
}

#[test]
fn nothing_behind_the_last_face_is_taken(rt: HostRuntime) -> Result<(), Fail> {
    let mut reader = reader(rt.alloc(), b"OFF 1 0\n1 -2 3\nrest", 1)?;
    let _ = reader.next();
    let _ = reader.next();
    assert_eq!(rt; reader.next(), Ok(None));
    assert_eq!(rt; next_byte(reader.into_source()), Some(b'r'));
    Ok(())
}
