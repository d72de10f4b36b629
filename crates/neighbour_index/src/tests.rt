ghost use Rattle.oemm_lists.specs.Ascending.{IsAboveLast};
ghost use Rattle.std.specs.Prelude.{◌+◌, OnOk};

use super::*;
use mesh_data::{LeafNo, LeafSet, Name, Tri};
use std::alloc::{AllocError, Global};
use std::test::Fail;

const OCTAHEDRON: [[u32; 3]; 8] = [
    [0, 2, 4],
    [2, 1, 4],
    [1, 3, 4],
    [3, 0, 4],
    [2, 0, 5],
    [1, 2, 5],
    [3, 1, 5],
    [0, 3, 5],
];

/// The octahedron's leaves where three vertices are too many for one.
const LEAVES: [[u32; 2]; 6] = [[0, 7], [1, 6], [2, 7], [3, 5], [4, 7], [5, 3]];

/// The same, of three of its vertices alone, in another order, one listed in two leaves.
const SOME: [[u32; 2]; 4] = [[4, 7], [1, 6], [5, 3], [1, 2]];

fn octahedron(alloc: Global) -> Result<Vec<Tri>, AllocError> {
    let mut faces = Vec::new(alloc);
    for f in &OCTAHEDRON {
        faces.push(Tri {
            a: Name(f[0]),
            b: Name(f[1]),
            c: Name(f[2]),
        })?;
    }
    Ok(faces)
}

fn listed(alloc: Global, homes: &[[u32; 2]]) -> Result<Vec<(Name, LeafNo)>, AllocError> {
    let mut listed = Vec::new(alloc);
    for h in homes {
        listed.push((Name(h[0]), LeafNo(h[1])))?;
    }
    Ok(listed)
}

#[test]
fn leaves_that_share_a_face(rt: HostRuntime) -> Result<(), Fail> {
    for (homes, leaf, want) in [
        (&LEAVES[..], 7, &[3, 5, 6][..]),
        (&LEAVES[..], 6, &[3, 5, 7][..]),
        (&LEAVES[..], 3, &[5, 6, 7][..]),
        (&LEAVES[..], 0, &[][..]),
        (&SOME[..], 7, &[2, 6][..]),
        (&SOME[..], 3, &[2, 6][..]),
        (&SOME[..], 6, &[2, 3, 7][..]),
        (&SOME[..], 5, &[][..]),
    ] {
        let faces = octahedron(rt.alloc())?;
        let listed = listed(rt.alloc(), homes)?;
        let near = near_of(
            rt.alloc(),
            LeafNo(leaf),
            faces.as_slice(),
            listed.as_slice(),
        )?;
        assert_eq!(rt; near.len(), want.len(), "{homes:?} {leaf}");
        for (found, number) in near.slice().iter().zip(want) {
            assert_eq!(rt; found.0, *number, "{homes:?} {leaf}");
        }
    }
    Ok(())
}

/// Puts a leaf at the end, if it is a multiple.
fn put_multiple(set: &mut LeafSet, leaf: u32, of: u32) -> Result<(), AllocError>
    requires { IsAboveLast leaf set.old }
    ensures { OnOk result (IsAboveLast (leaf + 1) set.new) }
{
    if leaf.is_multiple_of(of) {
        set.add(LeafNo(leaf))?;
    }
    Ok(())
}

/// The multiples below a number.
fn multiples(alloc: Global, below: u32, of: u32) -> Result<LeafSet, AllocError> {
    let mut set = LeafSet::new(alloc);
    for leaf in 0..below {
        put_multiple(&mut set, leaf, of)?;
    }
    Ok(set)
}

#[test]
fn unions(rt: HostRuntime) -> Result<(), Fail> {
    for (twos, threes, want) in [
        (7, 7, &[0, 2, 3, 4, 6][..]),
        (5, 0, &[0, 2, 4][..]),
        (0, 4, &[0, 3][..]),
        (0, 0, &[][..]),
    ] {
        let outside = multiples(rt.alloc(), twos, 2)?;
        let inside = multiples(rt.alloc(), threes, 3)?;
        let near = join_near(rt.alloc(), &outside, &inside)?;
        assert_eq!(rt; near.len(), want.len(), "{twos} {threes}");
        for (found, number) in near.slice().iter().zip(want) {
            assert_eq!(rt; found.0, *number, "{twos} {threes}");
        }
    }
    Ok(())
}
