ghost use Rattle.std.specs.Prelude.{◌+◌, OnOk};
ghost use Rattle.oemm_lists.specs.Ascending.{IsAboveLast};

use super::*;
use mesh_data::{Name, NameSet, Tri};
use std::alloc::{AllocError, Global};
use std::test::Fail;

const OCTAHEDRON: [[u32; 3]; 8] = [
    [0, 2, 4],
    [2, 1, 4],
    [1, 3, 4],
    [3, 0, 4],
    [2, 0, 5],
    [1, 2, 5],
    [3, 1, 5],
    [0, 3, 5],
];

/// A strip of three triangles, in which each next name is across from the one before the last.
const STRIP: [[u32; 3]; 3] = [[0, 1, 2], [2, 1, 3], [2, 3, 4]];

/// Puts a name at the end, if it isn't the one that is left out.
fn push_but(held: &mut NameSet, v: u32, out: u32) -> Result<(), AllocError>
    requires { IsAboveLast v held.old }
    ensures { OnOk result (IsAboveLast (v + 1) held.new) }
{
    if v != out && held.push(Name(v)).is_err() {
        return Err(AllocError);
    }
    Ok(())
}

/// The names from 0 on, so many, but one.
fn all_but(alloc: Global, names: u32, out: u32) -> Result<NameSet, AllocError> {
    let mut held = NameSet::new(alloc);
    for v in 0..names {
        push_but(&mut held, v, out)?;
    }
    Ok(held)
}

#[test]
fn held_names_with_held_neighbours(rt: HostRuntime) -> Result<(), Fail> {
    for (faces, names, out, want) in [
        (&OCTAHEDRON[..], 6, 6, &[0, 1, 2, 3, 4, 5][..]),
        (&OCTAHEDRON[..], 6, 5, &[4][..]),
        (&OCTAHEDRON[..], 3, 6, &[][..]),
        (&STRIP[..], 5, 5, &[0, 1, 2, 3, 4][..]),
        (&STRIP[..], 5, 4, &[0, 1][..]),
        (&STRIP[..], 7, 0, &[3, 4, 5, 6][..]),
        (&[][..], 2, 0, &[1][..]),
    ] {
        let held = all_but(rt.alloc(), names, out)?;
        let mut tris = Vec::new(rt.alloc());
        for f in faces {
            tris.push(Tri {
                a: Name(f[0]),
                b: Name(f[1]),
                c: Name(f[2]),
            })?;
        }
        let free = free_of(rt.alloc(), tris.as_slice(), &held)?;
        for v in 0..10 {
            assert_eq!(rt;
                free.is_free(Name(v)),
                want.contains(&v),
                "{faces:?} {names} {out} {v}"
            );
        }
    }
    Ok(())
}
