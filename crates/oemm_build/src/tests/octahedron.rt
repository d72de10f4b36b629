//! The octahedron, cut into the octants of the grid, and the empty mesh: their texts, and their bytes in a store.

use std::alloc::{AllocError, Global};

/// The file of the octahedron.
pub const OCTAHEDRON: &str = "OFF
6 8 0
4 0 0
-4 0 0
0 4 0
0 -4 0
0 0 4
0 0 -4
3 0 2 4
3 2 1 4
3 1 3 4
3 3 0 4
3 2 0 5
3 1 2 5
3 3 1 5
3 0 3 5
";

/// The same with its last face turned round.
pub const TURNED_FACE: &str = "OFF
6 8 0
4 0 0
-4 0 0
0 4 0
0 -4 0
0 0 4
0 0 -4
3 0 2 4
3 2 1 4
3 1 3 4
3 3 0 4
3 2 0 5
3 1 2 5
3 3 1 5
3 0 5 3
";

/// The file of the empty mesh.
pub const EMPTY: &str = "OFF\n0 0 0\n";

/// The bytes of its index, where a leaf may have 3 vertices and a task 64 leaves.
pub const INDEX: &[u8] =
    b"OEMI\x01\0\x03\0\0\0\x40\0\0\0\x06\0\0\0\x08\0\0\0\x02\0\0\0\0\0\0\0\x08\0\0\0\
\x01\0\0\0\x01\x01\0\0\x01\0\x01\0\x01\x01\x01\0\x01\0\0\x01\x01\x01\0\x01\x01\0\x01\x01\x01\x01\x01\x01";

/// The bytes of the sheet of the empty mesh.
pub const EMPTY_SHEET: &[u8] = b"OEML\x01\0\0\0\0\0\0\0\0\0\0\0\0\0\0\0\0\0";

/// The bytes of its index, where a leaf may have 4,096 vertices and a task 64 leaves.
pub const EMPTY_INDEX: &[u8] =
    b"OEMI\x01\0\0\x10\0\0\x40\0\0\0\0\0\0\0\0\0\0\0\0\0\0\0\0\0\0\0\x01\0\0\0\0\0\0\0";

/// A vertex of the octahedron: its name, its point, and the sums `ad`, `bd` and `cd` of its planes.
pub struct Corner {
    name: u32,
    point: [i16; 3],
    offsets: [i128; 3],
}

/// A sheet of the octahedron: its leaf, its vertices and faces, and the leaves near to it.
pub struct Octant {
    pub leaf: u32,
    corners: &'static [Corner],
    faces: &'static [[u32; 3]],
    near: &'static [u32],
}

/// The eight sheets.
pub const SHEETS: [Octant; 8] = [
    Octant {
        leaf: 0,
        corners: &[],
        faces: &[],
        near: &[],
    },
    Octant {
        leaf: 1,
        corners: &[],
        faces: &[],
        near: &[],
    },
    Octant {
        leaf: 2,
        corners: &[],
        faces: &[],
        near: &[],
    },
    Octant {
        leaf: 3,
        corners: &[Corner {
            name: 5,
            point: [0, 0, -4],
            offsets: [0, 0, 4096],
        }],
        faces: &[[0, 3, 5], [0, 5, 2], [1, 2, 5], [1, 5, 3]],
        near: &[5, 6, 7],
    },
    Octant {
        leaf: 4,
        corners: &[],
        faces: &[],
        near: &[],
    },
    Octant {
        leaf: 5,
        corners: &[Corner {
            name: 3,
            point: [0, -4, 0],
            offsets: [0, 4096, 0],
        }],
        faces: &[[0, 4, 3], [1, 3, 4]],
        near: &[3, 6, 7],
    },
    Octant {
        leaf: 6,
        corners: &[Corner {
            name: 1,
            point: [-4, 0, 0],
            offsets: [4096, 0, 0],
        }],
        faces: &[[1, 4, 2]],
        near: &[3, 5, 7],
    },
    Octant {
        leaf: 7,
        corners: &[
            Corner {
                name: 0,
                point: [4, 0, 0],
                offsets: [-4096, 0, 0],
            },
            Corner {
                name: 2,
                point: [0, 4, 0],
                offsets: [0, -4096, 0],
            },
            Corner {
                name: 4,
                point: [0, 0, 4],
                offsets: [0, 0, -4096],
            },
        ],
        faces: &[[0, 2, 4]],
        near: &[3, 5, 6],
    },
];

/// Puts a number of 32 bits.
fn put(out: &mut Vec<u8>, number: u32) -> Result<(), AllocError> {
    out.extend_from_slice(&number.to_le_bytes())?;
    Ok(())
}

/// Puts the length of a list.
fn put_count(out: &mut Vec<u8>, count: usize) -> Result<(), AllocError> {
    match u32::try_from(count) {
        Ok(count) => put(out, count),
        Err(_) => Err(AllocError),
    }
}

/// Puts a vertex, with the sums `aa`, `ab`, `ac`, `ad`, `bb`, `bc`, `bd`, `cc`, `cd` and `dd` of its four planes.
fn put_corner(out: &mut Vec<u8>, corner: &Corner) -> Result<(), AllocError> {
    put(out, corner.name)?;
    for coordinate in &corner.point {
        out.extend_from_slice(&coordinate.to_le_bytes())?;
    }
    put(out, 4)?;
    let [ad, bd, cd] = corner.offsets;
    for sum in &[1024, 0, 0, ad, 1024, 0, bd, 1024, cd, 16384] {
        out.extend_from_slice(&sum.to_le_bytes())?;
    }
    Ok(())
}

/// The bytes of a sheet.
pub fn sheet_bytes(alloc: Global, sheet: &Octant) -> Result<Vec<u8>, AllocError> {
    let mut out = Vec::from_slice(alloc, b"OEML\x01\0")?;
    put(&mut out, sheet.leaf)?;
    put_count(&mut out, sheet.corners.len())?;
    put_count(&mut out, sheet.faces.len())?;
    put_count(&mut out, sheet.near.len())?;
    for corner in sheet.corners {
        put_corner(&mut out, corner)?;
    }
    for face in sheet.faces {
        for name in face {
            put(&mut out, *name)?;
        }
    }
    for leaf in sheet.near {
        put(&mut out, *leaf)?;
    }
    Ok(out)
}
