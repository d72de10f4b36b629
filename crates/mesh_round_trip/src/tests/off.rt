//! ASCII OFF: heads, layouts, coordinates, faces, cuts, limits.

use super::{Case, Reader, ends, first_failing, gives, opened};
use mesh_items::{Item, Items, MeshFault, MeshWhy};
use oemm_io::MemSource;
use oemm_limits::{MOST_MESH_BYTES, What};
use oemm_lines::Lines;
use oemm_octree::Point;
use off_reader::OffReader;
use std::alloc::{AllocError, Global};
use std::test::Fail;

impl Reader for OffReader<MemSource> {
    fn open(alloc: Global, source: MemSource) -> Result<Self, AllocError> {
        match Lines::new(alloc, source, MOST_MESH_BYTES, true) {
            Ok(lines) => Ok(OffReader::new(lines)),
            Err((_, error)) => Err(error),
        }
    }
}

const HEADS: [Case; 9] = [
    Case {
        text: b"OFF\n0 0 0\n",
        given: 1,
        fault: None,
    },
    Case {
        text: b"OFF 0 0",
        given: 1,
        fault: None,
    },
    Case {
        text: b"\n# no mesh\nOFFX 0 0\n",
        given: 0,
        fault: Some(MeshFault::Text {
            at: 11,
            why: MeshWhy::Head,
        }),
    },
    Case {
        text: b"off\n0 0\n",
        given: 0,
        fault: Some(MeshFault::Text {
            at: 0,
            why: MeshWhy::Head,
        }),
    },
    Case {
        text: b"OFF\0\n0 0\n",
        given: 0,
        fault: Some(MeshFault::Text {
            at: 0,
            why: MeshWhy::Head,
        }),
    },
    Case {
        text: b"OFF 0\n0 0\n",
        given: 0,
        fault: Some(MeshFault::Text {
            at: 0,
            why: MeshWhy::Words,
        }),
    },
    Case {
        text: b"OFF\n\n0 # 0\n",
        given: 0,
        fault: Some(MeshFault::Text {
            at: 5,
            why: MeshWhy::Words,
        }),
    },
    Case {
        text: b"OFF\n-1 0\n",
        given: 0,
        fault: Some(MeshFault::Text {
            at: 4,
            why: MeshWhy::Number,
        }),
    },
    Case {
        text: b"OFF\n0 1.0\n",
        given: 0,
        fault: Some(MeshFault::Text {
            at: 4,
            why: MeshWhy::Number,
        }),
    },
];

const LIMITS: [Case; 6] = [
    Case {
        text: b"OFF\n16777217 0 0\n",
        given: 0,
        fault: Some(MeshFault::TooMany {
            what: What::Vertices,
            count: 16777217,
        }),
    },
    Case {
        text: b"OFF\n16777217 abc\n",
        given: 0,
        fault: Some(MeshFault::TooMany {
            what: What::Vertices,
            count: 16777217,
        }),
    },
    Case {
        text: b"OFF 16777217",
        given: 0,
        fault: Some(MeshFault::TooMany {
            what: What::Vertices,
            count: 16777217,
        }),
    },
    Case {
        text: b"OFF\n0016777216 18446744073709551615\n",
        given: 0,
        fault: Some(MeshFault::TooMany {
            what: What::Faces,
            count: u64::MAX,
        }),
    },
    Case {
        text: b"OFF\n18446744073709551616 0\n",
        given: 0,
        fault: Some(MeshFault::Text {
            at: 4,
            why: MeshWhy::Number,
        }),
    },
    Case {
        text: b"OFF 16777216 16777216",
        given: 1,
        fault: Some(MeshFault::Text {
            at: 21,
            why: MeshWhy::Cut,
        }),
    },
];

const LAYOUTS: [Case; 4] = [
    Case {
        text: b"OFF 3 1\n0 0 0\n1 0 0\n0 1 0\n3 2 0 1",
        given: 5,
        fault: None,
    },
    Case {
        text: b"#\n \t\r\nOFF# a\r\n#b\r\n3\t1 7 #c\r\n\n0 0 0#d\n1 0 0 5 x\r\n0 1 0\n\n\t+3#e\n",
        given: 4,
        fault: Some(MeshFault::Text {
            at: 55,
            why: MeshWhy::Number,
        }),
    },
    Case {
        text: b"OFF 3 1\n0 0 0\n1 0 0\n0 1 0\n3 +2 -0 0001 255 \xff\0\nx",
        given: 5,
        fault: None,
    },
    Case {
        text: b"OFF\r 1 0\n1 -2 3\n",
        given: 0,
        fault: Some(MeshFault::Text {
            at: 0,
            why: MeshWhy::Head,
        }),
    },
];

const CUTS: [Case; 6] = [
    Case {
        text: b"",
        given: 0,
        fault: Some(MeshFault::Text {
            at: 0,
            why: MeshWhy::Cut,
        }),
    },
    Case {
        text: b" \t\n#\r\n ",
        given: 0,
        fault: Some(MeshFault::Text {
            at: 7,
            why: MeshWhy::Cut,
        }),
    },
    Case {
        text: b"OFF\r\n",
        given: 0,
        fault: Some(MeshFault::Text {
            at: 5,
            why: MeshWhy::Cut,
        }),
    },
    Case {
        text: b"OFF 1 0",
        given: 1,
        fault: Some(MeshFault::Text {
            at: 7,
            why: MeshWhy::Cut,
        }),
    },
    Case {
        text: b"OFF 1 0\n1 -2",
        given: 1,
        fault: Some(MeshFault::Text {
            at: 8,
            why: MeshWhy::Words,
        }),
    },
    Case {
        text: b"OFF 1 0\n1 -2 3",
        given: 2,
        fault: None,
    },
];

#[test]
fn heads(rt: HostRuntime) {
    assert_eq!(rt;
        first_failing::<OffReader<MemSource>>(rt.alloc(), b"", &HEADS),
        Ok(None)
    );
}

#[test]
fn limits(rt: HostRuntime) {
    assert_eq!(rt;
        first_failing::<OffReader<MemSource>>(rt.alloc(), b"", &LIMITS),
        Ok(None)
    );
}

#[test]
fn layouts(rt: HostRuntime) {
    assert_eq!(rt;
        first_failing::<OffReader<MemSource>>(rt.alloc(), b"", &LAYOUTS),
        Ok(None)
    );
}

#[test]
fn cuts(rt: HostRuntime) {
    assert_eq!(rt;
        first_failing::<OffReader<MemSource>>(rt.alloc(), b"", &CUTS),
        Ok(None)
    );
}

/// A word that stands as x of the second vertex, and the coordinate or what is wrong with it.
struct Coordinate {
    word: &'static [u8],
    x: Result<i16, MeshWhy>,
}

const NOT_INTEGER: MeshWhy = MeshWhy::NotInteger { vertex: 1 };

const OUT_OF_RANGE: MeshWhy = MeshWhy::OutOfRange { vertex: 1 };

const WHOLE: [Coordinate; 11] = [
    Coordinate {
        word: b"1.0",
        x: Ok(1),
    },
    Coordinate {
        word: b"+3.",
        x: Ok(3),
    },
    Coordinate {
        word: b"-0",
        x: Ok(0),
    },
    Coordinate {
        word: b"1.",
        x: Ok(1),
    },
    Coordinate {
        word: b"-32768.000",
        x: Ok(-32768),
    },
    Coordinate {
        word: b"+32767",
        x: Ok(32767),
    },
    Coordinate {
        word: b"00000000000000000000000000000000000000000000000012",
        x: Ok(12),
    },
    Coordinate {
        word: b"32768",
        x: Err(OUT_OF_RANGE),
    },
    Coordinate {
        word: b"-32769.0",
        x: Err(OUT_OF_RANGE),
    },
    Coordinate {
        word: b"99999999999999999999999999999999999999999999999999",
        x: Err(OUT_OF_RANGE),
    },
    Coordinate {
        word: b"-170141183460469231731687303715884105728",
        x: Err(OUT_OF_RANGE),
    },
];

const DECIMAL: [Coordinate; 7] = [
    Coordinate {
        word: b"1.5",
        x: Err(NOT_INTEGER),
    },
    Coordinate {
        word: b"1e3",
        x: Err(NOT_INTEGER),
    },
    Coordinate {
        word: b".5",
        x: Err(NOT_INTEGER),
    },
    Coordinate {
        word: b".0",
        x: Err(NOT_INTEGER),
    },
    Coordinate {
        word: b"-.5E-07",
        x: Err(NOT_INTEGER),
    },
    Coordinate {
        word: b"+1.e+0",
        x: Err(NOT_INTEGER),
    },
    Coordinate {
        word: b"99999999999999999999999999999999999999999.1e999999999999999999999999",
        x: Err(NOT_INTEGER),
    },
];

const OTHER: [&[u8]; 14] = [
    b".",
    b"e",
    b"+",
    b"-.",
    b"e5",
    b"1e",
    b"1e+",
    b"1.2.3",
    b"+-1",
    b"1e1.0",
    b"nan",
    b"0x1",
    b"1\0",
    b"\xd9\xa1",
];

/// A mesh of two vertices whose second one has this word as x.
fn mesh_with(alloc: Global, word: &[u8]) -> Result<Vec<u8>, AllocError> {
    let mut text = Vec::from_slice(alloc, b"OFF 2 0\n0 0 0\n")?;
    text.extend_from_slice(word)?;
    text.extend_from_slice(b" 7 8\n")?;
    Ok(text)
}

/// What stands in the place of the second vertex of such a mesh.
fn second_vertex(
    alloc: Global,
    word: &[u8],
    piece: usize,
) -> Result<Result<Option<Item>, MeshFault>, AllocError> {
    let text = mesh_with(alloc, word)?;
    let mut reader: OffReader<MemSource> = opened(alloc, text.as_slice(), piece, 0)?;
    let _ = reader.next();
    let _ = reader.next();
    Ok(reader.next())
}

/// Whether the word is taken as this coordinate, or refused so.
fn is_taken(alloc: Global, word: &[u8], x: Result<i16, MeshWhy>) -> Result<bool, AllocError> {
    let wanted = match x {
        Ok(x) => Ok(Some(Item::Vertex(Point { x, y: 7, z: 8 }))),
        Err(why) => Err(MeshFault::Text { at: 14, why }),
    };
    Ok(second_vertex(alloc, word, 1)? == wanted && second_vertex(alloc, word, 1000)? == wanted)
}

/// Which of these words isn't taken so.
fn first_mistaken(alloc: Global, words: &[Coordinate]) -> Result<Option<usize>, AllocError> {
    for (i, row) in words.iter().enumerate() {
        if !is_taken(alloc, row.word, row.x)? {
            return Ok(Some(i));
        }
    }
    Ok(None)
}

#[test]
fn whole_coordinates(rt: HostRuntime) {
    assert_eq!(rt; first_mistaken(rt.alloc(), &WHOLE), Ok(None));
}

#[test]
fn decimal_coordinates(rt: HostRuntime) {
    assert_eq!(rt; first_mistaken(rt.alloc(), &DECIMAL), Ok(None));
}

#[test]
fn other_words(rt: HostRuntime) -> Result<(), Fail> {
    for word in OTHER {
        assert!(rt; is_taken(rt.alloc(), word, Err(MeshWhy::Number))?);
    }
    Ok(())
}

/// A line that stands as the second face of three vertices, and what is wrong with it.
const FACES: [(&[u8], MeshWhy); 12] = [
    (b"4 0 1 2 x", MeshWhy::NotTriangle { face: 1 }),
    (b"18446744073709551616 0", MeshWhy::NotTriangle { face: 1 }),
    (b"+3 0 1 2", MeshWhy::Number),
    (b"3.0 0 1 2", MeshWhy::Number),
    (b"3 0 1", MeshWhy::Words),
    (b"3 0 9 x", MeshWhy::Number),
    (b"3 0 9", MeshWhy::Words),
    (b"3 0 1.0 2", MeshWhy::Number),
    (b"3 0 1 3", MeshWhy::BadIndex { face: 1 }),
    (b"3 0 -1 2", MeshWhy::BadIndex { face: 1 }),
    (b"3 0 0 9", MeshWhy::BadIndex { face: 1 }),
    (b"3 0 1 +1", MeshWhy::Repeated { face: 1 }),
];

/// The fault of three vertices, a face and this line.
fn fault_of_face(
    alloc: Global,
    line: &[u8],
    piece: usize,
) -> Result<Option<MeshFault>, AllocError> {
    let mut text = Vec::from_slice(alloc, b"OFF 3 2\n0 0 0\n1 0 0\n0 1 0\n3 2 0 1\n")?;
    text.extend_from_slice(line)?;
    let mut reader: OffReader<MemSource> = opened(alloc, text.as_slice(), piece, 0)?;
    for _ in 0..5 {
        let _ = reader.next();
    }
    Ok(reader.next().err())
}

#[test]
fn faces(rt: HostRuntime) -> Result<(), Fail> {
    for (line, why) in FACES {
        let fault = Some(MeshFault::Text { at: 34, why });
        assert_eq!(rt; fault_of_face(rt.alloc(), line, 1)?, fault);
        assert_eq!(rt; fault_of_face(rt.alloc(), line, 1000)?, fault);
    }
    Ok(())
}

#[test]
fn a_source_that_fails(rt: HostRuntime) -> Result<(), Fail> {
    let mut reader: OffReader<MemSource> = opened(rt.alloc(), b"OFF 1 0\n1 -2 3\n", 1, 2)?;
    assert!(rt; ends(&mut reader, Some(MeshFault::Read)));
    Ok(())
}

#[test]
fn a_source_that_fails_in_a_vertex(rt: HostRuntime) -> Result<(), Fail> {
    let mut reader: OffReader<MemSource> = opened(rt.alloc(), b"OFF 1 0\n1 -2 3\n", 1, 12)?;
    assert!(rt; gives(&mut reader, 1));
    assert!(rt; ends(&mut reader, Some(MeshFault::Read)));
    Ok(())
}

#[test]
fn a_long_line(rt: HostRuntime) -> Result<(), Fail> {
    let mut text = Vec::from_slice(rt.alloc(), b"OFF\n")?;
    let blanks = vec![in rt.alloc(); b' '; 65537]?;
    text.extend_from_slice(blanks.as_slice())?;
    let fault = Some(MeshFault::TooMany {
        what: What::LineBytes,
        count: 65537,
    });
    let mut reader: OffReader<MemSource> = opened(rt.alloc(), text.as_slice(), 1000, 0)?;
    assert!(rt; ends(&mut reader, fault));
    Ok(())
}
