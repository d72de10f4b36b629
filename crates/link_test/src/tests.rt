use super::*;
use mesh_data::Name;
use std::alloc::{AllocError, Global};
use std::test::Fail;

fn names(alloc: Global, ring: &[u32]) -> Result<Vec<Name>, AllocError> {
    ring.iter().map(|v| Name(*v)).collect(alloc)
}

#[test]
fn verdicts_by_rings(rt: HostRuntime) -> Result<(), Fail> {
    for (ring_u, ring_v, closed_v, u, v, want) in [
        // the octahedron with the tips 4 and 5
        (&[0, 2, 1, 3][..], &[2, 4, 3, 5][..], true, 4, 0, Link::Good),
        // the tetrahedron
        (&[1, 2, 3][..], &[0, 3, 2][..], true, 0, 1, Link::Closed),
        // the double pyramid over 0, 1 and 2 with the tips 3 and 4
        (
            &[1, 3, 2, 4][..],
            &[3, 0, 4, 2][..],
            true,
            0,
            1,
            Link::Shared(Name(2)),
        ),
        (&[0, 1, 2][..], &[3, 1, 4, 2][..], true, 3, 0, Link::Good),
        // an open ring of three names at v
        (&[1, 2, 3][..], &[2, 0, 3][..], false, 0, 1, Link::Good),
        // two common neighbours besides the opposite names 2 and 6
        (
            &[1, 2, 9, 4, 7, 6][..],
            &[4, 6, 0, 2, 9, 8][..],
            true,
            0,
            1,
            Link::Shared(Name(4)),
        ),
    ] {
        let of_u = names(rt.alloc(), ring_u)?;
        let of_v = names(rt.alloc(), ring_v)?;
        let told = verdict(of_u.as_slice(), of_v.as_slice(), closed_v, Name(u), Name(v));
        assert_eq!(rt; told, want, "{ring_u:?} {ring_v:?}");
    }
    Ok(())
}
