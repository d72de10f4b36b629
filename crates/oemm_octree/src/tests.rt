ghost use Rattle.std.specs.Prelude.{IfOk};
ghost use Rattle.oemm_octree.specs.Leaves.{AreTiles};

use super::*;
use std::alloc::{AllocError, Global};
use std::test::Fail;

fn at(p: &[i16; 3]) -> Point {
    Point {
        x: p[0],
        y: p[1],
        z: p[2],
    }
}

fn octree(alloc: Global, points: &[[i16; 3]], cap: u32) -> Result<Cells, AllocError>
    ensures { IfOk result AreTiles }
{
    let mut counts = Counts::new(alloc)?;
    if points.len() > 99 {
        return Err(AllocError);
    }
    for p in points {
        counts.add(at(p));
    }
    let cells = counts.leaves(alloc, cap)?;
    if !tiles(&cells) {
        return Err(AllocError);
    }
    Ok(cells)
}

#[test]
fn cells_hold_points_and_meet_boxes(rt: HostRuntime) {
    let root = Cell {
        depth: 0,
        x: 0,
        y: 0,
        z: 0,
    };
    let upper = Cell {
        depth: 1,
        x: 1,
        y: 0,
        z: 1,
    };
    for (cell, x, y, z, want) in [
        (root, -32768, 32767, 0, true),
        (upper, 0, -1, 0, true),
        (upper, 0, 0, 0, false),
        (upper, -1, -1, 0, false),
        (upper, 32767, -32768, 32767, true),
    ] {
        assert_eq!(rt;
            cell.holds(&Point { x, y, z }),
            want,
            "{cell:?} {x} {y} {z}"
        );
    }
    let corner = |n: i16| Point { x: n, y: n, z: n };
    for (cell, low, high, want) in [
        (root, 5, 5, true),
        (upper, -1, 0, true),
        (upper, 0, 10, false),
        (upper, -10, -1, false),
    ] {
        assert_eq!(rt;
            cell.meets(&corner(low), &corner(high)),
            want,
            "{cell:?} {low} {high}"
        );
    }
}

#[test]
fn leaves_have_few_points_and_each_point_its_home(rt: HostRuntime) -> Result<(), Fail> {
    let (low, high) = (-32768, 32767);
    let octahedron = [
        [4, 0, 0],
        [-4, 0, 0],
        [0, 4, 0],
        [0, -4, 0],
        [0, 0, 4],
        [0, 0, -4],
    ];
    let two_tetrahedra = [
        [10, 10, 10],
        [14, 10, 10],
        [10, 14, 10],
        [10, 10, 14],
        [-10, -10, -10],
        [-6, -10, -10],
        [-10, -6, -10],
        [-10, -10, -6],
    ];
    let corners = [
        [low, low, low],
        [high, low, low],
        [low, high, low],
        [high, high, low],
        [low, low, high],
        [high, low, high],
        [low, high, high],
        [high, high, high],
    ];
    let low_corner = [[low, low, low], [low + 1, low, low], [low, low, low + 9]];
    let high_corner = [[high, high, high], [high, high - 9, high], [high; 3]];
    let twins = [[0; 3], [0; 3]];
    for (points, cap, leaves, homes) in [
        (
            octahedron.as_slice(),
            3,
            8,
            [7u32, 6, 7, 5, 7, 3].as_slice(),
        ),
        (octahedron.as_slice(), 6, 1, [0; 6].as_slice()),
        (
            two_tetrahedra.as_slice(),
            4,
            8,
            [7, 7, 7, 7, 0, 0, 0, 0].as_slice(),
        ),
        (
            corners.as_slice(),
            1,
            8,
            [0, 1, 2, 3, 4, 5, 6, 7].as_slice(),
        ),
        (low_corner.as_slice(), 2, 43, [0; 3].as_slice()),
        (high_corner.as_slice(), 2, 43, [42; 3].as_slice()),
        (twins.as_slice(), 1, 43, [7; 2].as_slice()),
        (twins.as_slice(), 2, 1, [0; 2].as_slice()),
        ([].as_slice(), 0, 1, [].as_slice()),
    ] {
        let cells = octree(rt.alloc(), points, cap)?;
        assert_eq!(rt; cells.len(), leaves, "{points:?} {cap}");
        for (p, home) in points.iter().zip(homes) {
            assert_eq!(rt; home_of(&cells, at(p)).0, *home, "{p:?} {cap}");
        }
    }
    Ok(())
}

#[test]
fn boxes_have_cores(rt: HostRuntime) -> Result<(), Fail> {
    let corners = [[-1; 3], [0; 3]];
    let cells = octree(rt.alloc(), corners.as_slice(), 1)?;
    for (low, high, want) in [
        (
            [-32768; 3],
            [32767; 3],
            [0u32, 1, 2, 3, 4, 5, 6, 7].as_slice(),
        ),
        ([0; 3], [10; 3], [7].as_slice()),
        ([-10; 3], [-1; 3], [0].as_slice()),
        ([-1, 0, 5], [0, 0, 5], [6, 7].as_slice()),
        ([0; 3], [-1; 3], [].as_slice()),
    ] {
        let core = meeting(rt.alloc(), &cells, at(&low), at(&high))?;
        assert_eq!(rt;
            count_meeting(&cells, at(&low), at(&high)) as usize,
            want.len()
        );
        assert_eq!(rt; core.len(), want.len(), "{low:?} {high:?}");
        for (leaf, number) in core.slice().iter().zip(want) {
            assert_eq!(rt; leaf.0, *number, "{low:?} {high:?}");
        }
    }
    Ok(())
}

#[test]
fn wrong_tilings_are_told(rt: HostRuntime) -> Result<(), Fail> {
    let octants = [
        [1, 0, 0, 0],
        [1, 1, 0, 0],
        [1, 0, 1, 0],
        [1, 1, 1, 0],
        [1, 0, 0, 1],
        [1, 1, 0, 1],
        [1, 0, 1, 1],
        [1, 1, 1, 1],
    ];
    let mut turned = octants;
    turned[1] = [1, 0, 1, 0];
    turned[2] = [1, 1, 0, 0];
    for (list, want) in [
        ([].as_slice(), false),
        ([[0u8; 4]].as_slice(), true),
        ([[0; 4], [0; 4]].as_slice(), false),
        ([[255; 4]].as_slice(), false),
        (octants.as_slice(), true),
        (turned.as_slice(), false),
        (&octants[..7], false),
        (&octants[1..], false),
    ] {
        let mut cells = Cells::new(rt.alloc());
        for c in list {
            cells.add(Cell {
                depth: c[0],
                x: c[1],
                y: c[2],
                z: c[3],
            })?;
        }
        assert_eq!(rt; tiles(&cells), want, "{list:?}");
    }
    Ok(())
}
