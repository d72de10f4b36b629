use super::{MeshFault, MeshWhy, fault_at, fault_of_lines, name_of, triangle_of};
use mesh_data::{Name, Tri};
use oemm_limits::{MOST_MESH_BYTES, What};
use oemm_lines::LineFault;

#[test]
fn indices(rt: HostRuntime) {
    let rows: [(i64, u32, Option<u32>); 6] = [
        (0, 1, Some(0)),
        (0, 0, None),
        (1, 1, None),
        (-1, 4, None),
        (3, 4, Some(3)),
        (1 << 32, u32::MAX, None),
    ];
    for (index, vertices, name) in &rows {
        assert_eq!(rt; name_of(*index, *vertices), *name);
    }
}

/// The triangle of face 2, whose line begins at byte 5.
fn triangle(i: Option<u32>, j: Option<u32>, k: Option<u32>) -> Result<Tri, MeshFault> {
    triangle_of(5, 2, i, j, k)
}

#[test]
fn triangles(rt: HostRuntime) {
    let whole = Tri {
        a: Name(2),
        b: Name(0),
        c: Name(1),
    };
    assert_eq!(rt; triangle(Some(2), Some(0), Some(1)), Ok(whole));
    let rows: [(Option<u32>, Option<u32>, Option<u32>, MeshWhy); 5] = [
        (Some(2), Some(2), Some(1), MeshWhy::Repeated { face: 2 }),
        (Some(2), Some(1), Some(1), MeshWhy::Repeated { face: 2 }),
        (Some(1), Some(0), Some(1), MeshWhy::Repeated { face: 2 }),
        (None, Some(1), Some(1), MeshWhy::BadIndex { face: 2 }),
        (Some(1), Some(1), None, MeshWhy::BadIndex { face: 2 }),
    ];
    for (i, j, k, why) in &rows {
        assert_eq!(rt; triangle(*i, *j, *k), Err(fault_at(5, *why)));
    }
}

#[test]
fn faults_of_lines(rt: HostRuntime) {
    let long = MeshFault::TooMany {
        what: What::LineBytes,
        count: 65537,
    };
    let rows: [(LineFault, MeshFault); 4] = [
        (LineFault::Read, MeshFault::Read),
        (LineFault::TooLong { at: 7 }, long),
        (
            LineFault::Bytes {
                taken: MOST_MESH_BYTES,
            },
            MeshFault::TooMany {
                what: What::MeshBytes,
                count: MOST_MESH_BYTES,
            },
        ),
        (LineFault::Memory, MeshFault::Memory),
    ];
    for (fault, wanted) in &rows {
        assert_eq!(rt; fault_of_lines(*fault), *wanted);
    }
}
