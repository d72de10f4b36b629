//! The octahedron, put by hand into a store in memory: its sheets and patches, and each damage with its fault.

ghost use Rattle.std.specs.Prelude.{IsTrue};
ghost use Rattle.oemm_octree.specs.Leaves.{AreBelow};

use super::*;
use crate::sheets::are_below;
use leaf_codec::Blob;
use mesh_data::{Name, Tri};
use neighbour_index::set_of;
use oemm_blobs::{Blobs, Key, MemBlobs};
use oemm_limits::MOST_TASKS;
use oemm_octree::{LeafNo, LeafSet, tiles};
use sheet_data::{IndexSheet, LeafSheet, NumberedEntry, Patch};
use std::alloc::Global;
use std::test::Fail;

/// A sheet: its leaf, its vertices, each with so many planes, its faces, and the leaves near to it.
#[derive(Clone, Copy)]
struct Row {
    leaf: u32,
    vertices: &'static [(u32, [i16; 3])],
    planes: u32,
    faces: &'static [[u32; 3]],
    near: &'static [u32],
}

/// The sheet of an octant in which nothing lies.
fn empty(leaf: u32) -> Row {
    Row {
        leaf,
        vertices: &[],
        planes: 4,
        faces: &[],
        near: &[],
    }
}

/// The octants with corners of the octahedron.
const THREE: Row = Row {
    leaf: 3,
    vertices: &[(5, [0, 0, -4])],
    planes: 4,
    faces: &[[0, 3, 5], [0, 5, 2], [1, 2, 5], [1, 5, 3]],
    near: &[5, 6, 7],
};

const FIVE: Row = Row {
    leaf: 5,
    vertices: &[(3, [0, -4, 0])],
    planes: 4,
    faces: &[[0, 4, 3], [1, 3, 4]],
    near: &[3, 6, 7],
};

const SIX: Row = Row {
    leaf: 6,
    vertices: &[(1, [-4, 0, 0])],
    planes: 4,
    faces: &[[1, 4, 2]],
    near: &[3, 5, 7],
};

const SEVEN: Row = Row {
    leaf: 7,
    vertices: &[(0, [4, 0, 0]), (2, [0, 4, 0]), (4, [0, 0, 4])],
    planes: 4,
    faces: &[[0, 2, 4]],
    near: &[3, 5, 6],
};

/// The sheets of the octahedron, which is cut by octants.
fn sheets() -> [Row; 8] {
    [
        empty(0),
        empty(1),
        empty(2),
        THREE,
        empty(4),
        FIVE,
        SIX,
        SEVEN,
    ]
}

const OCTANTS: [u8; 8] = [0, 1, 2, 3, 4, 5, 6, 7];

/// Puts numbers at the end, each of so many bytes, the lowest byte first.
fn put(out: &mut Vec<u8>, rows: &[(usize, i128)]) -> Result<(), Fail> {
    for (width, number) in rows {
        let all = number.to_le_bytes();
        let part = all.get(..*width).ok_or("no width")?;
        out.extend_from_slice(part)?;
    }
    Ok(())
}

/// Puts a corner of the octahedron with its sums: the normals of its faces have parts of 16 in size, and their offsets
/// are -64.
fn put_corner(out: &mut Vec<u8>, name: u32, at: &[i16; 3], planes: u32) -> Result<(), Fail> {
    let [x, y, z] = at.map(|place: i16| i128::from(place));
    let [ad, bd, cd] = [x, y, z].map(|place: i128| place.wrapping_mul(-1024));
    put(out, &[(4, i128::from(name)), (2, x), (2, y), (2, z)])?;
    put(
        out,
        &[
            (4, i128::from(planes)),
            (16, 1024),
            (16, 0),
            (16, 0),
            (16, ad),
        ],
    )?;
    put(
        out,
        &[
            (16, 1024),
            (16, 0),
            (16, bd),
            (16, 1024),
            (16, cd),
            (16, 16384),
        ],
    )
}

/// The bytes of a sheet.
fn sheet_bytes(alloc: Global, row: &Row) -> Result<Vec<u8>, Fail> {
    let mut out = b"OEML".to_vec(alloc)?;
    put(&mut out, &[(2, 1), (4, i128::from(row.leaf))])?;
    for count in [row.vertices.len(), row.faces.len(), row.near.len()] {
        put(&mut out, &[(4, count as i128)])?;
    }
    for (name, at) in row.vertices {
        put_corner(&mut out, *name, at, row.planes)?;
    }
    for [a, b, c] in row.faces {
        put(
            &mut out,
            &[
                (4, i128::from(*a)),
                (4, i128::from(*b)),
                (4, i128::from(*c)),
            ],
        )?;
    }
    for leaf in row.near {
        put(&mut out, &[(4, i128::from(*leaf))])?;
    }
    Ok(out)
}

/// The bytes of an index with these octants as its cells: of cap 3, with cores of 8 leaves, of the octahedron.
fn index_bytes(alloc: Global, octants: &[u8]) -> Result<Vec<u8>, Fail> {
    let mut out = b"OEMI".to_vec(alloc)?;
    put(
        &mut out,
        &[(2, 1), (4, 3), (4, 8), (4, 6), (4, 8), (4, 2), (4, 0)],
    )?;
    put(&mut out, &[(4, octants.len() as i128)])?;
    for n in octants {
        let (x, y, z) = (n % 2, n / 2 % 2, n / 4);
        put(
            &mut out,
            &[
                (1, 1),
                (1, i128::from(x)),
                (1, i128::from(y)),
                (1, i128::from(z)),
            ],
        )?;
    }
    Ok(out)
}

/// The bytes of an entry: a task of lane 0 without edits in a leaf.
fn entry_bytes(alloc: Global, number: u32, task: u32, leaf: u32) -> Result<Vec<u8>, Fail> {
    let mut out = b"OEME".to_vec(alloc)?;
    put(
        &mut out,
        &[
            (2, 1),
            (4, i128::from(number)),
            (1, 0),
            (4, i128::from(task)),
        ],
    )?;
    put(&mut out, &[(2, 0), (2, 0), (2, 0), (2, 8), (2, 8), (2, 8)])?;
    put(&mut out, &[(1, 0), (4, 1), (4, i128::from(leaf)), (4, 0)])?;
    Ok(out)
}

/// A shelf with the index of the octahedron over an empty store.
fn fresh(alloc: Global) -> Result<Shelf<MemBlobs>, Fail> {
    let index = IndexSheet::decode(alloc, index_bytes(alloc, &OCTANTS)?.as_slice())?;
    if !tiles(&index.cells) {
        return Err("octants tile the cube")?;
    }
    match Shelf::fresh(alloc, MemBlobs::new(alloc), index, 0) {
        Ok(shelf) => Ok(shelf),
        Err((_, fault)) => Err(fault)?,
    }
}

fn put_row(
    alloc: Global,
    shelf: &mut Shelf<MemBlobs>,
    version: u32,
    row: &Row,
) -> Result<(), Fail> {
    let bytes = sheet_bytes(alloc, row)?;
    let sheet = LeafSheet::decode(alloc, bytes.as_slice())?;
    shelf.put_sheet(alloc, version, &sheet)?;
    Ok(())
}

/// A shelf over the octahedron's store.
fn octahedron(alloc: Global) -> Result<Shelf<MemBlobs>, Fail> {
    let mut shelf = fresh(alloc)?;
    shelf.put_index(alloc)?;
    for row in &sheets() {
        put_row(alloc, &mut shelf, 0, row)?;
    }
    Ok(shelf)
}

/// Whether these are the triangles.
fn are_faces(tris: &[Tri], faces: &[[u32; 3]]) -> bool {
    tris.len() == faces.len()
        && tris
            .iter()
            .zip(faces)
            .all(|(t, f)| [t.a.0, t.b.0, t.c.0] == *f)
}

/// Whether these are the leaves.
fn are_leaves(set: &LeafSet, leaves: &[u32]) -> bool {
    set.len() == leaves.len() && set.slice().iter().zip(leaves).all(|(l, n)| l.0 == *n)
}

/// Whether the sheet is that of the row.
fn is_row(sheet: &LeafSheet, row: &Row) -> bool {
    let vertices = sheet.vertices.slice();
    sheet.leaf.0 == row.leaf
        && vertices.len() == row.vertices.len()
        && vertices.iter().zip(row.vertices).all(|(x, v)| x.name.0 == v.0
            && [x.point.x, x.point.y, x.point.z] == v.1)
        && are_faces(sheet.faces.slice(), row.faces)
        && are_leaves(&sheet.near, row.near)
}

/// Whether the leaves are among so many.
fn is_core(count: usize, core: &LeafSet) -> bool
    ensures { IsTrue result → AreBelow count core.now }
{
    are_below(count, core.slice())
}

/// The patch of these leaves.
fn patch(alloc: Global, shelf: &mut Shelf<MemBlobs>, leaves: &[u32]) -> Result<Patch, ShelfFault> {
    let mut core = Vec::new(alloc);
    for leaf in leaves {
        core.push(LeafNo(*leaf))?;
    }
    let core = set_of(core);
    if !is_core(shelf.cells().len(), &core) {
        return Err(ShelfFault::Memory);
    }
    shelf.patch(alloc, &core)
}

/// A core, and what its patch has: the names of its vertices, the whole triangles, the mixed ones with their leaves, and
/// what is near to each leaf outside of the core.
#[derive(Clone, Copy)]
struct Seen {
    core: &'static [u32],
    names: &'static [u32],
    whole: &'static [[u32; 3]],
    mixed: &'static [(u32, [u32; 3])],
    near: &'static [&'static [u32]],
}

const PATCHES: [Seen; 13] = [
    Seen {
        core: &[0],
        names: &[],
        whole: &[],
        mixed: &[],
        near: &[&[]],
    },
    Seen {
        core: &[3],
        names: &[5],
        whole: &[],
        mixed: &[
            (3, [0, 3, 5]),
            (3, [0, 5, 2]),
            (3, [1, 2, 5]),
            (3, [1, 5, 3]),
        ],
        near: &[&[5, 6, 7]],
    },
    Seen {
        core: &[5],
        names: &[3],
        whole: &[],
        mixed: &[
            (3, [0, 3, 5]),
            (5, [0, 4, 3]),
            (5, [1, 3, 4]),
            (3, [1, 5, 3]),
        ],
        near: &[&[3, 6, 7]],
    },
    Seen {
        core: &[6],
        names: &[1],
        whole: &[],
        mixed: &[
            (3, [1, 2, 5]),
            (5, [1, 3, 4]),
            (6, [1, 4, 2]),
            (3, [1, 5, 3]),
        ],
        near: &[&[3, 5, 7]],
    },
    Seen {
        core: &[7],
        names: &[0, 2, 4],
        whole: &[[0, 2, 4]],
        mixed: &[
            (3, [0, 3, 5]),
            (5, [0, 4, 3]),
            (3, [0, 5, 2]),
            (3, [1, 2, 5]),
            (5, [1, 3, 4]),
            (6, [1, 4, 2]),
        ],
        near: &[&[3, 5, 6]],
    },
    Seen {
        core: &[0, 7],
        names: &[0, 2, 4],
        whole: &[[0, 2, 4]],
        mixed: &[
            (3, [0, 3, 5]),
            (5, [0, 4, 3]),
            (3, [0, 5, 2]),
            (3, [1, 2, 5]),
            (5, [1, 3, 4]),
            (6, [1, 4, 2]),
        ],
        near: &[&[], &[3, 5, 6]],
    },
    Seen {
        core: &[3, 5],
        names: &[3, 5],
        whole: &[],
        mixed: &[
            (3, [0, 3, 5]),
            (5, [0, 4, 3]),
            (3, [0, 5, 2]),
            (3, [1, 2, 5]),
            (5, [1, 3, 4]),
            (3, [1, 5, 3]),
        ],
        near: &[&[6, 7], &[6, 7]],
    },
    Seen {
        core: &[3, 6],
        names: &[1, 5],
        whole: &[],
        mixed: &[
            (3, [0, 3, 5]),
            (3, [0, 5, 2]),
            (3, [1, 2, 5]),
            (5, [1, 3, 4]),
            (6, [1, 4, 2]),
            (3, [1, 5, 3]),
        ],
        near: &[&[5, 7], &[5, 7]],
    },
    Seen {
        core: &[3, 7],
        names: &[0, 2, 4, 5],
        whole: &[[0, 2, 4], [0, 5, 2]],
        mixed: &[
            (3, [0, 3, 5]),
            (5, [0, 4, 3]),
            (3, [1, 2, 5]),
            (5, [1, 3, 4]),
            (6, [1, 4, 2]),
            (3, [1, 5, 3]),
        ],
        near: &[&[5, 6], &[5, 6]],
    },
    Seen {
        core: &[5, 6],
        names: &[1, 3],
        whole: &[],
        mixed: &[
            (3, [0, 3, 5]),
            (5, [0, 4, 3]),
            (3, [1, 2, 5]),
            (5, [1, 3, 4]),
            (6, [1, 4, 2]),
            (3, [1, 5, 3]),
        ],
        near: &[&[3, 7], &[3, 7]],
    },
    Seen {
        core: &[5, 7],
        names: &[0, 2, 3, 4],
        whole: &[[0, 2, 4], [0, 4, 3]],
        mixed: &[
            (3, [0, 3, 5]),
            (3, [0, 5, 2]),
            (3, [1, 2, 5]),
            (5, [1, 3, 4]),
            (6, [1, 4, 2]),
            (3, [1, 5, 3]),
        ],
        near: &[&[3, 6], &[3, 6]],
    },
    Seen {
        core: &[6, 7],
        names: &[0, 1, 2, 4],
        whole: &[[0, 2, 4], [1, 4, 2]],
        mixed: &[
            (3, [0, 3, 5]),
            (5, [0, 4, 3]),
            (3, [0, 5, 2]),
            (3, [1, 2, 5]),
            (5, [1, 3, 4]),
            (3, [1, 5, 3]),
        ],
        near: &[&[3, 5], &[3, 5]],
    },
    Seen {
        core: &[0, 1, 2, 3, 4, 5, 6, 7],
        names: &[0, 1, 2, 3, 4, 5],
        whole: &[
            [0, 2, 4],
            [0, 3, 5],
            [0, 4, 3],
            [0, 5, 2],
            [1, 2, 5],
            [1, 3, 4],
            [1, 4, 2],
            [1, 5, 3],
        ],
        mixed: &[],
        near: &[&[], &[], &[], &[], &[], &[], &[], &[]],
    },
];

/// Whether these are the vertices and triangles of the patch.
fn has_faces(made: &Patch, seen: &Seen) -> bool {
    let vertices = made.vertices.slice();
    let mixed = made.mixed.slice();
    vertices.len() == seen.names.len()
        && mixed.len() == seen.mixed.len()
        && vertices
            .iter()
            .zip(seen.names)
            .all(|(x, n)| x.name.0 == *n && x.quad.planes == 4)
        && are_faces(made.whole.slice(), seen.whole)
        && mixed.iter().zip(seen.mixed).all(|(m, f)| m.leaf.0 == f.0
            && [m.tri.a.0, m.tri.b.0, m.tri.c.0] == f.1)
}

/// Whether these are its lists of near leaves.
fn has_near(made: &Patch, seen: &Seen) -> bool {
    let lists = made.near.slice();
    lists.len() == seen.near.len()
        && lists.iter().zip(seen.core).all(|(l, n)| l.leaf.0 == *n)
        && lists
            .iter()
            .zip(seen.near)
            .all(|(l, near)| are_leaves(&l.outside, near))
}

#[test]
fn the_octahedron_has_its_sheets_and_patches(rt: HostRuntime) -> Result<(), Fail> {
    let alloc = rt.alloc();
    let mut shelf = octahedron(alloc)?;
    assert_eq!(rt; shelf.cells().len(), 8);
    for row in &sheets() {
        let there = (row.leaf as usize) < shelf.cells().len();
        assert!(rt; there, "leaf {}", row.leaf);
        let sheet = shelf.sheet(alloc, LeafNo(row.leaf))?;
        assert!(rt; is_row(&sheet, row), "leaf {}", row.leaf);
    }
    for seen in &PATCHES {
        let made = patch(alloc, &mut shelf, seen.core)?;
        assert!(rt; has_faces(&made, seen), "core {:?}", seen.core);
        assert!(rt; has_near(&made, seen), "core {:?}", seen.core);
    }
    Ok(())
}

/// Leaf 7 after its first vertex was moved.
const MOVED: Row = Row {
    vertices: &[(0, [5, 0, 0]), (2, [0, 4, 0]), (4, [0, 0, 4])],
    ..SEVEN
};

/// Puts an entry of leaf 7 behind its moved sheet.
fn commit(alloc: Global, shelf: &mut Shelf<MemBlobs>) -> Result<(), Fail> {
    put_row(alloc, shelf, 1, &MOVED)?;
    let n = NumberedEntry::decode(alloc, entry_bytes(alloc, 0, 0, 7)?.as_slice())?;
    if n.number as usize >= MOST_TASKS || !is_core(shelf.cells().len(), &n.entry.core) {
        return Err("an entry of a leaf")?;
    }
    shelf.put_entry(alloc, n.number, &n.entry)?;
    Ok(())
}

/// The versions of leaves 6 and 7, and where the patch of 7 and its first sheet have the first vertex.
fn places(alloc: Global, shelf: &mut Shelf<MemBlobs>) -> Result<[i128; 4], Fail> {
    if shelf.cells().len() < 8 {
        return Err("octants are eight")?;
    }
    let [six, seven] = [shelf.version(LeafNo(6)), shelf.version(LeafNo(7))];
    let base = shelf.base(alloc, LeafNo(7))?;
    let made = patch(alloc, shelf, &[7])?;
    let now = made.vertices.slice().first().ok_or("no vertex")?.point.x;
    let then = base.vertices.slice().first().ok_or("no vertex")?.point.x;
    Ok([
        i128::from(six),
        i128::from(seven),
        i128::from(now),
        i128::from(then),
    ])
}

#[test]
fn an_entry_gives_its_core_a_version(rt: HostRuntime) -> Result<(), Fail> {
    let alloc = rt.alloc();
    let mut shelf = octahedron(alloc)?;
    assert_eq!(rt; places(alloc, &mut shelf)?, [0, 0, 4, 4]);
    commit(alloc, &mut shelf)?;
    assert_eq!(rt; places(alloc, &mut shelf)?, [0, 1, 5, 4]);
    let Ok((mut found, entries)) = Shelf::open(alloc, shelf.into_blobs(), 0) else {
        return Err("it has an index")?;
    };
    assert_eq!(rt; entries.slice().first().map(|e| e.core.len()), Some(1));
    assert_eq!(rt; found.index().cap, 3);
    assert_eq!(rt; places(alloc, &mut found)?, [0, 1, 5, 4]);
    Ok(())
}

/// What is told of a store.
#[derive(Clone, Copy, Debug, PartialEq, Eq)]
enum Answer {
    Nothing,
    NotBuilt,
    Store,
    Damaged(Key),
    Absent(Key),
    Clash(Clash),
    Memory,
}

fn told(why: &ShelfFault) -> Answer {
    match why {
        ShelfFault::Store => Answer::Store,
        ShelfFault::Damaged { key, bytes: _ } => Answer::Damaged(*key),
        ShelfFault::Absent { key } => Answer::Absent(*key),
        ShelfFault::Clash(clash) => Answer::Clash(*clash),
        ShelfFault::Memory => Answer::Memory,
    }
}

/// What is told of the patch of leaves 6 and 7.
fn told_of_patch(alloc: Global, shelf: &mut Shelf<MemBlobs>) -> Answer {
    match patch(alloc, shelf, &[6, 7]) {
        Ok(_) => Answer::Nothing,
        Err(why) => told(&why),
    }
}

/// What is told by an opening.
fn told_of_opening(why: &FoundFault) -> Answer {
    match why {
        FoundFault::NotBuilt => Answer::NotBuilt,
        FoundFault::Shelf(why) => told(why),
    }
}

/// What is told by an opening, or by the patch of leaves 6 and 7 behind it.
fn first_told(alloc: Global, blobs: MemBlobs) -> Answer {
    match Shelf::open(alloc, blobs, 0) {
        Ok((mut shelf, _)) => told_of_patch(alloc, &mut shelf),
        Err((_, why)) => told_of_opening(&why),
    }
}

/// Where something may stand: under the index's key, an entry's, or that of a leaf's first sheet.
#[derive(Clone, Copy)]
enum Place {
    Index,
    Entry(u32),
    Leaf(u32),
}

fn key_of(place: Place) -> Key {
    match place {
        Place::Index => Key::Index,
        Place::Entry(number) => Key::Entry(number),
        Place::Leaf(leaf) => Key::Leaf {
            leaf: LeafNo(leaf),
            version: 0,
        },
    }
}

/// What stands there.
#[derive(Clone, Copy)]
enum Stands {
    Nothing,
    Word,
    Cells(&'static [u8]),
    Sheet(Row),
    Entry(u32, u32, u32),
}

/// Puts it there.
fn damage(alloc: Global, blobs: &mut MemBlobs, key: Key, stands: Stands) -> Result<(), Fail> {
    let bytes = match stands {
        Stands::Nothing => return Ok(blobs.erase(alloc, key)?),
        Stands::Word => b"word".to_vec(alloc)?,
        Stands::Cells(octants) => index_bytes(alloc, octants)?,
        Stands::Sheet(row) => sheet_bytes(alloc, &row)?,
        Stands::Entry(number, task, leaf) => entry_bytes(alloc, number, task, leaf)?,
    };
    blobs.put(alloc, key, bytes.as_slice())?;
    Ok(())
}

/// What is told of the octahedron's store after these were put there.
fn told_with(alloc: Global, damages: &[(Place, Stands)]) -> Result<Answer, Fail> {
    let mut blobs = octahedron(alloc)?.into_blobs();
    for (place, stands) in damages {
        damage(alloc, &mut blobs, key_of(*place), *stands)?;
    }
    Ok(first_told(alloc, blobs))
}

/// The keys of first sheets.
const OF_0: Key = Key::Leaf {
    leaf: LeafNo(0),
    version: 0,
};

const OF_3: Key = Key::Leaf {
    leaf: LeafNo(3),
    version: 0,
};

const OF_5: Key = Key::Leaf {
    leaf: LeafNo(5),
    version: 0,
};

const OF_6: Key = Key::Leaf {
    leaf: LeafNo(6),
    version: 0,
};

const OF_7: Key = Key::Leaf {
    leaf: LeafNo(7),
    version: 0,
};

/// And of the one that leaf 7 has behind entry 0.
const NEXT: Key = Key::Leaf {
    leaf: LeafNo(7),
    version: 1,
};

const ZERO: Key = Key::Entry(0);

const ONE: Key = Key::Entry(1);

/// Cells of which the last two have changed places.
const SWAPPED: Stands = Stands::Cells(&[0, 1, 2, 3, 4, 5, 7, 6]);

/// Leaf 7 with a vertex that lies in leaf 6, with a name that the index doesn't have, with such a name at a face, and
/// with such a near leaf.
const ASTRAY: Row = Row {
    vertices: &[(1, [-4, 0, 0])],
    faces: &[],
    ..SEVEN
};

const UNNAMED: Row = Row {
    vertices: &[(6, [4, 0, 0])],
    faces: &[],
    ..SEVEN
};

const UNNAMED_FACE: Row = Row {
    faces: &[[0, 2, 6]],
    ..SEVEN
};

const NO_LEAF: Row = Row {
    near: &[3, 5, 8],
    ..SEVEN
};

/// Leaf 6 with a name of leaf 7's, with as many planes as there may be, and with one more near leaf.
const TWICE: Row = Row {
    vertices: &[(0, [-4, 0, 0])],
    faces: &[],
    ..SIX
};

const PLANES: Row = Row {
    planes: 50331648,
    ..SIX
};

const NEARER: Row = Row {
    near: &[0, 3, 5, 7],
    ..SIX
};

/// What stands in the octahedron's store, and what is told of it.
#[derive(Clone, Copy)]
struct Case {
    damages: &'static [(Place, Stands)],
    want: Answer,
}

const CASES: [Case; 27] = [
    Case {
        damages: &[],
        want: Answer::Nothing,
    },
    Case {
        damages: &[(Place::Index, Stands::Nothing)],
        want: Answer::NotBuilt,
    },
    Case {
        damages: &[(Place::Index, Stands::Word)],
        want: Answer::Damaged(Key::Index),
    },
    Case {
        damages: &[(Place::Index, SWAPPED)],
        want: Answer::Damaged(Key::Index),
    },
    Case {
        damages: &[(Place::Entry(0), Stands::Word)],
        want: Answer::Damaged(ZERO),
    },
    Case {
        damages: &[(Place::Entry(0), Stands::Entry(1, 0, 7))],
        want: Answer::Damaged(ZERO),
    },
    Case {
        damages: &[(Place::Entry(0), Stands::Entry(0, 1, 7))],
        want: Answer::Damaged(ZERO),
    },
    Case {
        damages: &[(Place::Entry(0), Stands::Entry(0, 0, 8))],
        want: Answer::Damaged(ZERO),
    },
    Case {
        damages: &[(Place::Entry(0), Stands::Entry(0, 0, 7))],
        want: Answer::Absent(NEXT),
    },
    Case {
        damages: &[(Place::Entry(1), Stands::Entry(1, 0, 7))],
        want: Answer::Nothing,
    },
    Case {
        damages: &[
            (Place::Entry(0), Stands::Entry(0, 0, 0)),
            (Place::Entry(1), Stands::Entry(1, 0, 0)),
        ],
        want: Answer::Damaged(ONE),
    },
    Case {
        damages: &[(Place::Leaf(7), Stands::Nothing)],
        want: Answer::Absent(OF_7),
    },
    Case {
        damages: &[(Place::Leaf(7), Stands::Word)],
        want: Answer::Damaged(OF_7),
    },
    Case {
        damages: &[(Place::Leaf(7), Stands::Sheet(SIX))],
        want: Answer::Damaged(OF_7),
    },
    Case {
        damages: &[(Place::Leaf(7), Stands::Sheet(ASTRAY))],
        want: Answer::Damaged(OF_7),
    },
    Case {
        damages: &[(Place::Leaf(7), Stands::Sheet(UNNAMED))],
        want: Answer::Damaged(OF_7),
    },
    Case {
        damages: &[(Place::Leaf(7), Stands::Sheet(UNNAMED_FACE))],
        want: Answer::Damaged(OF_7),
    },
    Case {
        damages: &[(Place::Leaf(7), Stands::Sheet(NO_LEAF))],
        want: Answer::Damaged(OF_7),
    },
    Case {
        damages: &[(Place::Leaf(0), Stands::Nothing)],
        want: Answer::Nothing,
    },
    Case {
        damages: &[(Place::Leaf(5), Stands::Nothing)],
        want: Answer::Absent(OF_5),
    },
    Case {
        damages: &[(Place::Leaf(3), Stands::Word)],
        want: Answer::Damaged(OF_3),
    },
    Case {
        damages: &[
            (Place::Leaf(3), Stands::Word),
            (Place::Leaf(7), Stands::Nothing),
        ],
        want: Answer::Absent(OF_7),
    },
    Case {
        damages: &[
            (Place::Leaf(6), Stands::Nothing),
            (Place::Leaf(7), Stands::Word),
        ],
        want: Answer::Absent(OF_6),
    },
    Case {
        damages: &[
            (Place::Leaf(5), Stands::Word),
            (Place::Leaf(3), Stands::Word),
        ],
        want: Answer::Damaged(OF_3),
    },
    Case {
        damages: &[
            (Place::Leaf(6), Stands::Sheet(NEARER)),
            (Place::Leaf(0), Stands::Word),
        ],
        want: Answer::Damaged(OF_0),
    },
    Case {
        damages: &[(Place::Leaf(6), Stands::Sheet(TWICE))],
        want: Answer::Clash(Clash::Twice { v: Name(0) }),
    },
    Case {
        damages: &[(Place::Leaf(6), Stands::Sheet(PLANES))],
        want: Answer::Clash(Clash::Planes { count: 50331660 }),
    },
];

#[test]
fn the_first_damage_is_told(rt: HostRuntime) -> Result<(), Fail> {
    for (place, case) in CASES.iter().enumerate() {
        let answer = told_with(rt.alloc(), case.damages)?;
        assert_eq!(rt; answer, case.want, "case {place}");
    }
    Ok(())
}

/// An opening makes a get of the index, of each entry, and of the first that is absent; the patch one of each leaf of
/// its core, and of leaves 3 and 5.
#[test]
fn a_get_that_fails_is_told(rt: HostRuntime) -> Result<(), Fail> {
    let alloc = rt.alloc();
    for failing in 1..9 {
        let mut shelf = octahedron(alloc)?;
        commit(alloc, &mut shelf)?;
        let mut blobs = shelf.into_blobs();
        blobs.arm(vec![in alloc; failing]?, Vec::new(alloc), Vec::new(alloc));
        let want = if failing < 8 {
            Answer::Store
        } else {
            Answer::Nothing
        };
        assert_eq!(rt; first_told(alloc, blobs), want, "get {failing}");
    }
    Ok(())
}
