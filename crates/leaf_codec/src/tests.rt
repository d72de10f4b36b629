use super::*;
use mesh_data::{Edit, Name, Reply};
use sheet_data::{IndexSheet, LeafSheet, NumberedEntry};
use std::alloc::Global;
use std::test::Fail;

const EMPTY_SHEET: [u8; 22] = [
    0x4f, 0x45, 0x4d, 0x4c, 1, 0, 0, 0, 0, 0, 0, 0, 0, 0, 0, 0, 0, 0, 0, 0, 0, 0,
];

const EMPTY_INDEX: [u8; 38] = [
    0x4f, 0x45, 0x4d, 0x49, 1, 0, 0, 0x10, 0, 0, 0x40, 0, 0, 0, 0, 0, 0, 0, 0, 0, 0, 0, 0, 0, 0, 0,
    0, 0, 0, 0, 1, 0, 0, 0, 0, 0, 0, 0,
];

/// Puts numbers at the end, each of so many bytes, the lowest byte first.
fn put(out: &mut Vec<u8>, rows: &[(usize, i128)]) -> Result<(), Fail> {
    for (width, number) in rows {
        let all = number.to_le_bytes();
        let part = all.get(..*width).ok_or("no width")?;
        out.extend_from_slice(part)?;
    }
    Ok(())
}

/// The place of the fault; none where the bytes are decoded.
fn place<B: Blob + Drop>(alloc: Global, bytes: &[u8]) -> Option<u64> {
    match B::decode(alloc, bytes) {
        Ok(_) => None,
        Err(CodecFault::Bad { at }) => Some(at),
        Err(CodecFault::Memory) => Some(u64::MAX),
    }
}

/// The place that the table has for a byte: each row is so many bytes with one place.
fn wanted(rows: &[(usize, Option<u64>)], byte: usize) -> Option<u64> {
    let mut behind = byte;
    for (count, at) in rows {
        if behind < *count {
            return *at;
        }
        behind -= *count;
    }
    Some(u64::MAX)
}

/// The first byte at which the place isn't that of the table, where it is turned over.
fn first_wrong<B: Blob + Drop>(
    alloc: Global,
    blob: &[u8],
    rows: &[(usize, Option<u64>)],
) -> Result<Option<usize>, Fail> {
    for i in 0..blob.len() {
        let mut turned = blob.to_vec(alloc)?;
        if let Some(byte) = turned.get_mut(i) {
            *byte = !*byte;
        }
        if place::<B>(alloc, turned.as_slice()) != wanted(rows, i) {
            return Ok(Some(i));
        }
    }
    Ok(None)
}

/// The places where the blob has one byte more and one less.
fn longer_and_shorter<B: Blob + Drop>(
    alloc: Global,
    blob: &[u8],
) -> Result<(Option<u64>, Option<u64>), Fail> {
    let mut other = blob.to_vec(alloc)?;
    other.push(0)?;
    let longer = place::<B>(alloc, other.as_slice());
    other.pop();
    other.pop();
    Ok((longer, place::<B>(alloc, other.as_slice())))
}

#[test]
fn the_empty_sheet(rt: HostRuntime) -> Result<(), Fail> {
    let sheet = LeafSheet::decode(rt.alloc(), &EMPTY_SHEET)?;
    assert_eq!(rt; (sheet.leaf.0, sheet.vertices.len()), (0, 0));
    assert_eq!(rt; (sheet.faces.len(), sheet.near.len()), (0, 0));
    assert_eq!(rt; sheet.encode(rt.alloc())?.slice(), EMPTY_SHEET.as_slice());
    Ok(())
}

#[test]
fn the_index_of_the_empty_mesh(rt: HostRuntime) -> Result<(), Fail> {
    let index = IndexSheet::decode(rt.alloc(), &EMPTY_INDEX)?;
    assert_eq!(rt; (index.cap, index.core, index.euler), (4096, 64, 0));
    assert_eq!(rt; index.cells.len(), 1);
    assert_eq!(rt; index.encode(rt.alloc())?.slice(), EMPTY_INDEX.as_slice());
    Ok(())
}

/// The corners of an octahedron, at 4 and -4 on each axis.
const CORNERS: [(i128, [i128; 3]); 6] = [
    (0, [4, 0, 0]),
    (1, [-4, 0, 0]),
    (2, [0, 4, 0]),
    (3, [0, -4, 0]),
    (4, [0, 0, 4]),
    (5, [0, 0, -4]),
];

const FACES: [[i128; 3]; 8] = [
    [0, 2, 4],
    [0, 3, 5],
    [0, 4, 3],
    [0, 5, 2],
    [1, 2, 5],
    [1, 3, 4],
    [1, 4, 2],
    [1, 5, 3],
];

/// A corner as a vertex with the sums of the planes of its four faces, whose normals have parts of 16 in size and whose
/// offsets are -64.
fn corner(name: i128, at: [i128; 3]) -> [(usize, i128); 15] {
    let [x, y, z] = at;
    let [ad, bd, cd] = at.map(|place: i128| place.wrapping_mul(-1024));
    [
        (4, name),
        (2, x),
        (2, y),
        (2, z),
        (4, 4),
        (16, 1024),
        (16, 0),
        (16, 0),
        (16, ad),
        (16, 1024),
        (16, 0),
        (16, bd),
        (16, 1024),
        (16, cd),
        (16, 16384),
    ]
}

/// The sheet of an octahedron.
fn octahedron(alloc: Global) -> Result<Vec<u8>, Fail> {
    let mut out = EMPTY_SHEET[..10].to_vec(alloc)?;
    put(&mut out, &[(4, 6), (4, 8), (4, 0)])?;
    for (name, at) in CORNERS {
        put(&mut out, &corner(name, at))?;
    }
    for [a, b, c] in FACES {
        put(&mut out, &[(4, a), (4, b), (4, c)])?;
    }
    Ok(out)
}

#[test]
fn the_sheet_of_an_octahedron(rt: HostRuntime) -> Result<(), Fail> {
    let bytes = octahedron(rt.alloc())?;
    assert_eq!(rt; bytes.len(), 1162);
    let sheet = LeafSheet::decode(rt.alloc(), bytes.as_slice())?;
    assert_eq!(rt; (sheet.vertices.len(), sheet.faces.len()), (6, 8));
    let last = sheet.vertices.slice().last();
    let seen = last.map(|v| (v.name, v.point.z, v.quad.cd, v.quad.dd));
    assert_eq!(rt; seen, Some((Name(5), -4, 4096, 16384)));
    assert_eq!(rt; sheet.encode(rt.alloc())?.slice(), bytes.as_slice());
    Ok(())
}

#[test]
fn an_octahedron_longer_and_shorter(rt: HostRuntime) -> Result<(), Fail> {
    let bytes = octahedron(rt.alloc())?;
    let places = longer_and_shorter::<LeafSheet>(rt.alloc(), bytes.as_slice())?;
    assert_eq!(rt; places, (Some(1162), Some(1150)));
    Ok(())
}

const MOST: i128 = 1 << 126;

/// Format 1, entry 7, lane 63, task 9, a box, not wide, leaves 0 and 5, and 14 edits.
const HEAD: [(usize, i128); 15] = [
    (2, 1),
    (4, 7),
    (1, 63),
    (4, 9),
    (2, -1),
    (2, -2),
    (2, -3),
    (2, 4),
    (2, 5),
    (2, -3),
    (1, 0),
    (4, 2),
    (4, 0),
    (4, 5),
    (4, 14),
];

const COLLAPSE: [(usize, i128); 4] = [(1, 1), (4, 1), (4, 2), (16, MOST)];

const MOVE: [(usize, i128); 5] = [(1, 2), (4, 3), (2, 1), (2, -2), (2, 3)];

const FLIP_AND_SIMPLIFY: [(usize, i128); 6] = [
    (1, 3),
    (4, 4),
    (4, 5),
    (1, 4),
    (16, 0),
    (4, 1 << 24),
];

/// The replies to ten collapses, two moves, a flip and a simplification of two steps.
const REPLIES: [(usize, i128); 32] = [
    (1, 1),
    (4, 1),
    (1, 2),
    (4, 2),
    (1, 3),
    (4, 3),
    (1, 4),
    (1, 5),
    (1, 6),
    (1, 7),
    (1, 10),
    (4, 1),
    (4, 2),
    (4, 3),
    (1, 11),
    (16, MOST),
    (1, 12),
    (16, -MOST),
    (1, 8),
    (1, 9),
    (1, 13),
    (4, 6),
    (4, 7),
    (1, 14),
    (4, 2),
    (4, 1),
    (4, 2),
    (16, MOST),
    (4, 3),
    (4, 4),
    (16, 0),
    (4, 8),
];

/// An entry with each edit and each reply.
fn each_reply(alloc: Global) -> Result<Vec<u8>, Fail> {
    let mut out = b"OEME".to_vec(alloc)?;
    put(&mut out, &HEAD)?;
    for _ in 0..10 {
        put(&mut out, &COLLAPSE)?;
    }
    for _ in 0..2 {
        put(&mut out, &MOVE)?;
    }
    put(&mut out, &FLIP_AND_SIMPLIFY)?;
    put(&mut out, &REPLIES)?;
    Ok(out)
}

#[test]
fn an_entry_with_each_edit_and_each_reply(rt: HostRuntime) -> Result<(), Fail> {
    let bytes = each_reply(rt.alloc())?;
    let n = NumberedEntry::decode(rt.alloc(), bytes.as_slice())?;
    let task = &n.entry.task;
    assert_eq!(rt; (n.number, task.lane.0, task.number), (7, 63, 9));
    assert_eq!(rt; (task.edits.len(), n.entry.replies.len()), (14, 14));
    let flip = Edit::Flip {
        a: Name(4),
        b: Name(5),
    };
    assert_eq!(rt; task.edits.slice().get(12), Some(&flip));
    assert_eq!(rt; n.entry.replies.slice().get(9), Some(&Reply::DoneAt(-MOST)));
    assert_eq!(rt; n.encode(rt.alloc())?.slice(), bytes.as_slice());
    Ok(())
}

#[test]
fn an_entry_longer_and_shorter(rt: HostRuntime) -> Result<(), Fail> {
    let bytes = each_reply(rt.alloc())?;
    let places = longer_and_shorter::<NumberedEntry>(rt.alloc(), bytes.as_slice())?;
    assert_eq!(rt; places, (Some(480), Some(423)));
    Ok(())
}

/// An entry of one flip.
fn one_flip(
    alloc: Global,
    wide: i128,
    leaves: &[(usize, i128)],
    reply: &[(usize, i128)],
) -> Result<Vec<u8>, Fail> {
    let mut out = b"OEME".to_vec(alloc)?;
    put(
        &mut out,
        &[(2, 1), (4, 0), (1, 3), (4, 1), (12, 0), (1, wide)],
    )?;
    put(&mut out, leaves)?;
    put(&mut out, &[(4, 1), (1, 3), (4, 1), (4, 2)])?;
    put(&mut out, reply)?;
    Ok(out)
}

#[test]
fn a_wide_entry(rt: HostRuntime) -> Result<(), Fail> {
    let wide = one_flip(rt.alloc(), 1, &[(4, 0)], &[])?;
    let n = NumberedEntry::decode(rt.alloc(), wide.as_slice())?;
    assert_eq!(rt; n.encode(rt.alloc())?.slice(), wide.as_slice());
    Ok(())
}

#[test]
fn entries_wide_and_not(rt: HostRuntime) -> Result<(), Fail> {
    let longer = one_flip(rt.alloc(), 1, &[(4, 0)], &[(1, 9)])?;
    assert_eq!(rt;
        place::<NumberedEntry>(rt.alloc(), longer.as_slice()),
        Some(45)
    );
    let narrow = one_flip(rt.alloc(), 0, &[(4, 0)], &[(1, 9)])?;
    assert_eq!(rt;
        place::<NumberedEntry>(rt.alloc(), narrow.as_slice()),
        Some(28)
    );
    let outside = one_flip(rt.alloc(), 0, &[(4, 1), (4, 0)], &[(1, 8)])?;
    assert_eq!(rt;
        place::<NumberedEntry>(rt.alloc(), outside.as_slice()),
        Some(49)
    );
    Ok(())
}

/// A sheet of a vertex without planes, a face and a neighbour.
fn small_sheet(alloc: Global) -> Result<Vec<u8>, Fail> {
    let mut out = EMPTY_SHEET[..10].to_vec(alloc)?;
    put(&mut out, &[(4, 1), (4, 1), (4, 1), (4, 5)])?;
    put(&mut out, &[(2, 1), (2, 2), (2, 3), (4, 0)])?;
    for _ in 0..10 {
        put(&mut out, &[(16, 0)])?;
    }
    put(&mut out, &[(4, 5), (4, 6), (4, 7), (4, 1)])?;
    Ok(out)
}

const SHEET_ROWS: [(usize, Option<u64>); 17] = [
    (4, Some(0)),
    (2, Some(4)),
    (4, None),
    (3, Some(196)),
    (1, Some(10)),
    (3, Some(208)),
    (1, Some(14)),
    (3, Some(212)),
    (1, Some(18)),
    (4, Some(196)),
    (6, None),
    (3, None),
    (1, Some(22)),
    (160, Some(22)),
    (4, Some(196)),
    (8, None),
    (4, None),
];

const INDEX_ROWS: [(usize, Option<u64>); 14] = [
    (4, Some(0)),
    (2, Some(4)),
    (2, None),
    (2, Some(6)),
    (1, None),
    (3, Some(10)),
    (3, None),
    (1, Some(14)),
    (3, None),
    (1, Some(18)),
    (8, None),
    (2, Some(38)),
    (2, Some(30)),
    (4, Some(34)),
];

const ENTRY_ROWS: [(usize, Option<u64>); 25] = [
    (4, Some(0)),
    (2, Some(4)),
    (4, None),
    (1, Some(10)),
    (4, None),
    (1, Some(15)),
    (1, None),
    (1, Some(15)),
    (1, None),
    (1, Some(15)),
    (2, None),
    (1, Some(15)),
    (1, None),
    (1, Some(15)),
    (1, None),
    (1, Some(15)),
    (1, Some(27)),
    (3, Some(48)),
    (1, Some(28)),
    (4, None),
    (2, Some(49)),
    (2, Some(36)),
    (1, Some(40)),
    (8, None),
    (1, Some(49)),
];

#[test]
fn each_byte_of_a_sheet_turned_over(rt: HostRuntime) -> Result<(), Fail> {
    let sheet = small_sheet(rt.alloc())?;
    let wrong = first_wrong::<LeafSheet>(rt.alloc(), sheet.as_slice(), &SHEET_ROWS)?;
    assert_eq!(rt; wrong, None);
    let places = longer_and_shorter::<LeafSheet>(rt.alloc(), sheet.as_slice())?;
    assert_eq!(rt; places, (Some(212), Some(208)));
    Ok(())
}

#[test]
fn each_byte_of_an_index_turned_over(rt: HostRuntime) -> Result<(), Fail> {
    let wrong = first_wrong::<IndexSheet>(rt.alloc(), &EMPTY_INDEX, &INDEX_ROWS)?;
    assert_eq!(rt; wrong, None);
    let places = longer_and_shorter::<IndexSheet>(rt.alloc(), &EMPTY_INDEX)?;
    assert_eq!(rt; places, (Some(38), Some(34)));
    Ok(())
}

#[test]
fn each_byte_of_an_entry_turned_over(rt: HostRuntime) -> Result<(), Fail> {
    let entry = one_flip(rt.alloc(), 0, &[(4, 1), (4, 0)], &[(1, 9)])?;
    let wrong = first_wrong::<NumberedEntry>(rt.alloc(), entry.as_slice(), &ENTRY_ROWS)?;
    assert_eq!(rt; wrong, None);
    let places = longer_and_shorter::<NumberedEntry>(rt.alloc(), entry.as_slice())?;
    assert_eq!(rt; places, (Some(50), Some(49)));
    Ok(())
}

#[test]
fn no_bytes_spell_two_values() {
    laws::spelling_laws::<LeafSheet>();
    laws::spelling_laws::<IndexSheet>();
    laws::spelling_laws::<NumberedEntry>();
}
