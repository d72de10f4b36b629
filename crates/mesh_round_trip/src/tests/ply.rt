//! Binary PLY: headers, elements, properties, lists that are skipped, faces, cuts, number types.

use super::{Case, Reader, ends, first_failing, gives, holds, joined, opened};
use mesh_data::{Name, Tri};
use mesh_items::{ElementKind, Item, Items, MeshFault, MeshWhy};
use oemm_io::MemSource;
use oemm_limits::{MOST_MESH_BYTES, What};
use oemm_lines::Lines;
use oemm_octree::Point;
use ply_reader::PlyReader;
use std::alloc::{AllocError, Global};
use std::test::Fail;

impl Reader for PlyReader<MemSource> {
    fn open(alloc: Global, source: MemSource) -> Result<Self, AllocError> {
        match Lines::new(alloc, source, MOST_MESH_BYTES, false) {
            Ok(lines) => Ok(PlyReader::new(lines)),
            Err((_, error)) => Err(error),
        }
    }
}

/// The first lines of a header.
const HEAD: &[u8] = b"ply\nformat binary_little_endian 1.0\n";

/// The first lines of a header with an element of vertices.
const VERTEX_HEAD: &[u8] = b"ply\nformat binary_little_endian 1.0\nelement vertex 1\n";

/// A header and three vertices, behind which a face stands.
const VERTICES: &[u8] =
    b"ply\nformat binary_little_endian 1.0\nelement vertex 3\nproperty char x\nproperty uchar y\nproperty short z\nelement face 1\nproperty list char int vertex_index\nend_header\r\n\0\0\0\0\xff\xc8\x01\x80\x04\x05\x06\0";

/// A header with lists and elements that are skipped.
const SKIPPING: &[u8] =
    b"ply\r\nformat binary_little_endian 1.0\r\nelement none 18446744073709551615\nelement before 2\nproperty list short ushort l\nproperty double d\nelement vertex 2\nproperty ushort z\nproperty list uint char l\nproperty int y\nproperty float w\nproperty uint x\nelement between 3\nproperty uchar a\nproperty float b\nelement face 0\nproperty list uchar int vertex_index\nelement behind 9\nproperty int a\nend_header\n";

const FIRST_LINES: [Case; 10] = [
    Case {
        text: b"",
        given: 0,
        fault: Some(MeshFault::Text {
            at: 0,
            why: MeshWhy::Cut,
        }),
    },
    Case {
        text: b"plyx\n",
        given: 0,
        fault: Some(MeshFault::Text {
            at: 0,
            why: MeshWhy::Head,
        }),
    },
    Case {
        text: b"\nply\n",
        given: 0,
        fault: Some(MeshFault::Text {
            at: 0,
            why: MeshWhy::Head,
        }),
    },
    Case {
        text: b"ply",
        given: 0,
        fault: Some(MeshFault::Text {
            at: 3,
            why: MeshWhy::Cut,
        }),
    },
    Case {
        text: b"ply \t\r\nformat ascii 1.0\n",
        given: 0,
        fault: Some(MeshFault::Text {
            at: 7,
            why: MeshWhy::Ascii,
        }),
    },
    Case {
        text: b"ply\nformat ascii 1.1\n",
        given: 0,
        fault: Some(MeshFault::Text {
            at: 4,
            why: MeshWhy::HeadLine,
        }),
    },
    Case {
        text: b"ply\nformat binary_little_endian 1.0\n\nformat binary_little_endian 1.0\n",
        given: 0,
        fault: Some(MeshFault::Text {
            at: 37,
            why: MeshWhy::HeadLine,
        }),
    },
    Case {
        text: b"ply\ncomment end_header\nelement vertex 1\n",
        given: 0,
        fault: Some(MeshFault::Text {
            at: 23,
            why: MeshWhy::HeadLine,
        }),
    },
    Case {
        text: b"ply\nformat binary_little_endian 1.0\nend_headers\n",
        given: 0,
        fault: Some(MeshFault::Text {
            at: 36,
            why: MeshWhy::HeadLine,
        }),
    },
    Case {
        text: b"ply\nformat binary_big_endian 1.0\ncomment made by hand\nelement vertex 3\nproperty float x\n",
        given: 0,
        fault: Some(MeshFault::Text {
            at: 71,
            why: MeshWhy::FloatCoordinate,
        }),
    },
];

const ELEMENTS: [Case; 8] = [
    Case {
        text: b"property int x\n",
        given: 0,
        fault: Some(MeshFault::Text {
            at: 36,
            why: MeshWhy::HeadLine,
        }),
    },
    Case {
        text: b"element face\n",
        given: 0,
        fault: Some(MeshFault::Text {
            at: 36,
            why: MeshWhy::FaceFirst,
        }),
    },
    Case {
        text: b"element vertex 1\nobj_info\nelement vertex 1\n",
        given: 0,
        fault: Some(MeshFault::Text {
            at: 62,
            why: MeshWhy::Twice,
        }),
    },
    Case {
        text: b"element vertex x\n",
        given: 0,
        fault: Some(MeshFault::Text {
            at: 36,
            why: MeshWhy::HeadLine,
        }),
    },
    Case {
        text: b"element vertex 16777217 x\n",
        given: 0,
        fault: Some(MeshFault::TooMany {
            what: What::Vertices,
            count: 16777217,
        }),
    },
    Case {
        text: b"element vertex 1\nelement face 16777217\n",
        given: 0,
        fault: Some(MeshFault::TooMany {
            what: What::Faces,
            count: 16777217,
        }),
    },
    Case {
        text: b"element vertex 18446744073709551616\n",
        given: 0,
        fault: Some(MeshFault::Text {
            at: 36,
            why: MeshWhy::Number,
        }),
    },
    Case {
        text: b"element other 1 x\n",
        given: 0,
        fault: Some(MeshFault::Text {
            at: 36,
            why: MeshWhy::HeadLine,
        }),
    },
];

const PROPERTIES: [Case; 9] = [
    Case {
        text: b"property int x\nproperty list uchar float x\n",
        given: 0,
        fault: Some(MeshFault::Text {
            at: 68,
            why: MeshWhy::Twice,
        }),
    },
    Case {
        text: b"property int x\nproperty float x\n",
        given: 0,
        fault: Some(MeshFault::Text {
            at: 68,
            why: MeshWhy::Twice,
        }),
    },
    Case {
        text: b"property list uchar float x\n",
        given: 0,
        fault: Some(MeshFault::Text {
            at: 53,
            why: MeshWhy::Kind,
        }),
    },
    Case {
        text: b"property double z x\n",
        given: 0,
        fault: Some(MeshFault::Text {
            at: 53,
            why: MeshWhy::FloatCoordinate,
        }),
    },
    Case {
        text: b"element face 1\nproperty int vertex_index\n",
        given: 0,
        fault: Some(MeshFault::Text {
            at: 68,
            why: MeshWhy::Kind,
        }),
    },
    Case {
        text: b"element face 1\nproperty list uchar float32 vertex_index\n",
        given: 0,
        fault: Some(MeshFault::Text {
            at: 68,
            why: MeshWhy::Kind,
        }),
    },
    Case {
        text: b"element face 1\nproperty list uchar int vertex_indices\nproperty list uchar int vertex_index\n",
        given: 0,
        fault: Some(MeshFault::Text {
            at: 107,
            why: MeshWhy::Twice,
        }),
    },
    Case {
        text: b"element face 1\nproperty list float int vertex_index\n",
        given: 0,
        fault: Some(MeshFault::Text {
            at: 68,
            why: MeshWhy::HeadLine,
        }),
    },
    Case {
        text: b"property quad x\n",
        given: 0,
        fault: Some(MeshFault::Text {
            at: 53,
            why: MeshWhy::HeadLine,
        }),
    },
];

const ENDS: [Case; 7] = [
    Case {
        text: b"end_header x\n",
        given: 0,
        fault: Some(MeshFault::Text {
            at: 36,
            why: MeshWhy::NoElement {
                which: ElementKind::Vertex,
            },
        }),
    },
    Case {
        text: b"element vertex 1\nproperty int x\nproperty int y\nproperty int z\nend_header\n",
        given: 0,
        fault: Some(MeshFault::Text {
            at: 98,
            why: MeshWhy::NoElement {
                which: ElementKind::Face,
            },
        }),
    },
    Case {
        text: b"element vertex 1\nproperty int x\nproperty int z\nelement face 1\nend_header\n",
        given: 0,
        fault: Some(MeshFault::Text {
            at: 98,
            why: MeshWhy::NoProperty { which: 1 },
        }),
    },
    Case {
        text: b"element vertex 1\nproperty int x\nproperty int y\nproperty int z\nelement face 1\nend_header\n",
        given: 0,
        fault: Some(MeshFault::Text {
            at: 113,
            why: MeshWhy::NoProperty { which: 3 },
        }),
    },
    Case {
        text: b"element vertex 1\nproperty int x\nproperty int y\nproperty int z\nelement face 1\nproperty list uchar int vertex_indices\nend_header x\n",
        given: 0,
        fault: Some(MeshFault::Text {
            at: 152,
            why: MeshWhy::HeadLine,
        }),
    },
    Case {
        text: b"element vertex 1\nproperty int x\nproperty int y\nproperty int z\nelement face 1\nproperty list uchar int vertex_indices\n",
        given: 0,
        fault: Some(MeshFault::Text {
            at: 152,
            why: MeshWhy::Cut,
        }),
    },
    Case {
        text: b"element vertex 0\nproperty int x\nproperty int y\nproperty int z\nelement face 0\nproperty list uchar int vertex_indices\nend_header",
        given: 1,
        fault: None,
    },
];

const FACES: [Case; 8] = [
    Case {
        text: b"\x03\x02\0\0\0\0\0\0\0\x01\0\0\0rest",
        given: 5,
        fault: None,
    },
    Case {
        text: b"\xff",
        given: 4,
        fault: Some(MeshFault::Text {
            at: 178,
            why: MeshWhy::ListCount,
        }),
    },
    Case {
        text: b"\x04",
        given: 4,
        fault: Some(MeshFault::Text {
            at: 178,
            why: MeshWhy::NotTriangle { face: 0 },
        }),
    },
    Case {
        text: b"\x03\x01\0\0\0\x01\0\0\0\x03\0\0\0",
        given: 4,
        fault: Some(MeshFault::Text {
            at: 178,
            why: MeshWhy::BadIndex { face: 0 },
        }),
    },
    Case {
        text: b"\x03\0\0\0\0\x01\0\0\0\xff\xff\xff\xff",
        given: 4,
        fault: Some(MeshFault::Text {
            at: 178,
            why: MeshWhy::BadIndex { face: 0 },
        }),
    },
    Case {
        text: b"\x03\0\0\0\0\x01\0\0\0\0\0\0\0",
        given: 4,
        fault: Some(MeshFault::Text {
            at: 178,
            why: MeshWhy::Repeated { face: 0 },
        }),
    },
    Case {
        text: b"\x03\x01\0\0\0\x01\0\0\0\x03\0\0",
        given: 4,
        fault: Some(MeshFault::Text {
            at: 190,
            why: MeshWhy::Cut,
        }),
    },
    Case {
        text: b"",
        given: 4,
        fault: Some(MeshFault::Text {
            at: 178,
            why: MeshWhy::Cut,
        }),
    },
];

const SKIPPED: [Case; 4] = [
    Case {
        text: b"\x02\0\t\0\t\0\0\0\0\0\0\0\0\0\0\0\0\0\0\0\0\0\0\0\x07\0\x03\0\0\0abc\0\x80\xff\xff\0\0\0\0\xff\x7f\0\0\x08\0\0\0\0\0\xff\xff\xff\xff\0\0\0\0\x01\0\0\0",
        given: 3,
        fault: None,
    },
    Case {
        text: b"\x02\0\t\0\t\0\0\0\0\0\0\0\0\0\0\0\0\0\0\0\0\0\0\0\x07\0\x03\0\0\0abc\0\x80\xff\xff\0\0\0\0\xff\x7f\0\0\x08\0\0\0\0\0\xff\xff\xff\xff\0\0\0\0@\x9c\0\0",
        given: 2,
        fault: Some(MeshFault::Text {
            at: 437,
            why: MeshWhy::OutOfRange { vertex: 1 },
        }),
    },
    Case {
        text: b"\xff\xff",
        given: 1,
        fault: Some(MeshFault::Text {
            at: 392,
            why: MeshWhy::ListCount,
        }),
    },
    Case {
        text: b"\x02\0\t\0\t\0\0\0\0\0\0\0\0\0\0",
        given: 1,
        fault: Some(MeshFault::Text {
            at: 407,
            why: MeshWhy::Cut,
        }),
    },
];

/// A triangle in big-endian numbers, with a property that is skipped.
const TRIANGLE: &[u8] =
    b"ply\nformat binary_big_endian 1.0\ncomment made by hand\nelement vertex 3\nproperty short x\nproperty short y\nproperty short z\nproperty float nx\nelement face 1\nproperty list uchar int vertex_index\nend_header\n\0\0\0\0\0\0\0\0\0\0\0\x04\0\0\0\0\0\0\0\0\0\0\0\x04\0\0\0\0\0\0\x03\0\0\0\0\0\0\0\x01\0\0\0\x02";

#[test]
fn first_lines(rt: HostRuntime) {
    assert_eq!(rt;
        first_failing::<PlyReader<MemSource>>(rt.alloc(), b"", &FIRST_LINES),
        Ok(None)
    );
}

#[test]
fn elements(rt: HostRuntime) {
    assert_eq!(rt;
        first_failing::<PlyReader<MemSource>>(rt.alloc(), HEAD, &ELEMENTS),
        Ok(None)
    );
}

#[test]
fn properties(rt: HostRuntime) {
    assert_eq!(rt;
        first_failing::<PlyReader<MemSource>>(rt.alloc(), VERTEX_HEAD, &PROPERTIES),
        Ok(None)
    );
}

#[test]
fn header_ends(rt: HostRuntime) {
    assert_eq!(rt;
        first_failing::<PlyReader<MemSource>>(rt.alloc(), HEAD, &ENDS),
        Ok(None)
    );
}

#[test]
fn faces(rt: HostRuntime) {
    assert_eq!(rt;
        first_failing::<PlyReader<MemSource>>(rt.alloc(), VERTICES, &FACES),
        Ok(None)
    );
}

#[test]
fn skipped(rt: HostRuntime) {
    assert_eq!(rt;
        first_failing::<PlyReader<MemSource>>(rt.alloc(), SKIPPING, &SKIPPED),
        Ok(None)
    );
}

/// Items whose numbers have signs, in little-endian files.
#[test]
fn signed_items(rt: HostRuntime) -> Result<(), Fail> {
    let text = joined(rt.alloc(), VERTICES, FACES[0].text)?;
    let mut faces: PlyReader<MemSource> = opened(rt.alloc(), &text, 1000, 0)?;
    assert!(rt; gives(&mut faces, 2));
    let second = Point {
        x: -1,
        y: 200,
        z: -32767,
    };
    assert_eq!(rt; faces.next(), Ok(Some(Item::Vertex(second))));
    let text = joined(rt.alloc(), SKIPPING, SKIPPED[0].text)?;
    let mut skipped: PlyReader<MemSource> = opened(rt.alloc(), &text, 1000, 0)?;
    assert!(rt; gives(&mut skipped, 1));
    let first = Point {
        x: 32767,
        y: -32768,
        z: 7,
    };
    assert_eq!(rt; skipped.next(), Ok(Some(Item::Vertex(first))));
    Ok(())
}

/// How many items come before a cut behind so many bytes.
const CUTS: [(usize, usize); 7] = [
    (0, 0),
    (202, 1),
    (203, 1),
    (212, 1),
    (213, 2),
    (240, 4),
    (245, 4),
];

#[test]
fn cuts(rt: HostRuntime) -> Result<(), Fail> {
    for (length, given) in CUTS {
        let fault = MeshFault::Text {
            at: length as u64,
            why: MeshWhy::Cut,
        };
        let text = TRIANGLE.get(..length).ok_or("short")?;
        assert!(rt; holds::<PlyReader<MemSource>>(rt.alloc(), text, given, Some(fault), 1)?);
        assert!(rt; holds::<PlyReader<MemSource>>(rt.alloc(), text, given, Some(fault), 1000)?);
    }
    Ok(())
}

#[test]
fn failed_take(rt: HostRuntime) -> Result<(), Fail> {
    let mut reader: PlyReader<MemSource> = opened(rt.alloc(), TRIANGLE, 100, 4)?;
    assert!(rt; gives(&mut reader, 1));
    assert!(rt; ends(&mut reader, Some(MeshFault::Read)));
    Ok(())
}

/// The names of the whole types, and how many bytes a number of each has.
const WHOLE_TYPES: [(&str, usize); 12] = [
    ("char", 1),
    ("int8", 1),
    ("uchar", 1),
    ("uint8", 1),
    ("short", 2),
    ("int16", 2),
    ("ushort", 2),
    ("uint16", 2),
    ("int", 4),
    ("int32", 4),
    ("uint", 4),
    ("uint32", 4),
];

/// Puts a number of so many bytes.
fn push(text: &mut Vec<u8>, value: u8, size: usize, high_first: bool) -> Result<(), AllocError> {
    for place in 0..size {
        let is_low = if high_first {
            size - place == 1
        } else {
            place == 0
        };
        text.push(if is_low { value } else { 0 })?;
    }
    Ok(())
}

/// A triangle whose x has the first type and whose list of indices has a count of the second type and items of the
/// third, behind another list of these types.
fn triangle_of(
    alloc: Global,
    order: &str,
    types: [(&str, usize); 3],
) -> Result<Vec<u8>, AllocError> {
    let [(x, x_size), (count, count_size), (item, item_size)] = types;
    let header = format!(in alloc;
        "ply\nformat binary_{order}_endian 1.0\nelement vertex 3\nproperty {x} x\nproperty uchar y\nproperty uchar z\nelement face 1\nproperty list {count} {item} other\nproperty list {count} {item} vertex_index\nend_header\n"
    )?;
    let high_first = order == "big";
    let mut text = header.as_bytes().to_vec(alloc)?;
    for x in 0..3u8 {
        push(&mut text, x, x_size, high_first)?;
        text.extend_from_slice(&[7, 9])?;
    }
    push(&mut text, 1, count_size, high_first)?;
    push(&mut text, 5, item_size, high_first)?;
    push(&mut text, 3, count_size, high_first)?;
    for index in [2u8, 0, 1] {
        push(&mut text, index, item_size, high_first)?;
    }
    Ok(text)
}

/// Whether the triangle's points and its face are read.
fn is_read(alloc: Global, text: &[u8]) -> Result<bool, AllocError> {
    let mut reader: PlyReader<MemSource> = opened(alloc, text, 1000, 0)?;
    let face = Item::Face(Tri {
        a: Name(2),
        b: Name(0),
        c: Name(1),
    });
    let last = Item::Vertex(Point { x: 2, y: 7, z: 9 });
    Ok(
        gives(&mut reader, 3)
            && reader.next() == Ok(Some(last))
            && reader.next() == Ok(Some(face))
            && ends(&mut reader, None),
    )
}

#[test]
fn whole_types(rt: HostRuntime) -> Result<(), Fail> {
    for order in ["little", "big"] {
        for (i, x) in WHOLE_TYPES.iter().enumerate() {
            let count = WHOLE_TYPES[i * 5 % 12];
            let item = WHOLE_TYPES[i * 7 % 12];
            let text = triangle_of(rt.alloc(), order, [*x, count, item])?;
            assert!(rt; is_read(rt.alloc(), &text)?, "{order} {}", x.0);
        }
    }
    Ok(())
}
