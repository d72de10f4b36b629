use super::*;
use mesh_data::{Name, Tri};
use oemm_octree::Point;
use std::test::Fail;

#[test]
fn points_are_read_as_they_are_put(rt: HostRuntime) -> Result<(), Fail> {
    let point = Point {
        x: -1,
        y: 2,
        z: 300,
    };
    point_known(&point);
    let mut out = Vec::new(rt.alloc());
    put_point(&mut out, &point)?;
    assert_eq!(rt; out.as_slice(), [0xffu8, 0xff, 2, 0, 44, 1].as_slice());
    let (read, rest) = point_at(out.as_slice()).ok_or("no point")?;
    assert_eq!(rt; (read, rest.len()), (point, 0));
    Ok(())
}

#[test]
fn triangles_are_read_as_they_are_put(rt: HostRuntime) -> Result<(), Fail> {
    let tri = Tri {
        a: Name(1),
        b: Name(2),
        c: Name(259),
    };
    tri_known(&tri);
    name_known(&tri.a);
    let mut out = Vec::new(rt.alloc());
    put_face(&mut out, &tri)?;
    assert_eq!(rt;
        out.as_slice(),
        [1u8, 0, 0, 0, 2, 0, 0, 0, 3, 1, 0, 0].as_slice()
    );
    match face_at(out.as_slice()) {
        Some((read, rest)) => assert!(rt; read == tri && rest.is_empty()),
        None => assert!(rt; false),
    }
    Ok(())
}

#[test]
fn turned_triangles_have_three_names_the_least_first(rt: HostRuntime) {
    for (a, b, c, turned) in [
        (0, 1, 2, true),
        (0, 2, 1, true),
        (1, 0, 2, false),
        (0, 0, 1, false),
        (0, 1, 1, false),
    ] {
        let t = Tri {
            a: Name(a),
            b: Name(b),
            c: Name(c),
        };
        assert_eq!(rt; is_turned(&t), turned, "{a} {b} {c}");
    }
}

#[test]
fn quadrics_are_read_within_their_bounds(rt: HostRuntime) -> Result<(), Fail> {
    let mut bytes = vec![in rt.alloc(); 0u8; 164]?;
    bytes[0] = 1;
    bytes[4] = 9;
    bytes[148] = 16;
    let Some((quad, rest)) = quad_at(bytes.as_slice()) else {
        return Err(Fail::from("no quadric"));
    };
    quad_known(&quad);
    assert_eq!(rt; (quad.planes, quad.aa, quad.dd, rest.len()), (1, 9, 16, 0));
    let mut out = Vec::new(rt.alloc());
    put_quad(&mut out, &quad)?;
    assert_eq!(rt; out.as_slice(), bytes.as_slice());
    bytes[163] = 0x80;
    assert!(rt; quad_at(bytes.as_slice()).is_none());
    Ok(())
}
