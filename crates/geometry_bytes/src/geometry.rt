//! Points, names and triangles.

ghost use Rattle.std.specs.Prelude.{◌≡◌, ◌<◌, ◌^◌, ◌++◌, OnOk};
ghost use Rattle.byte_grammar.specs.Calls.{Finds};
ghost use Rattle.geometry_bytes.specs.Geometry.{point, point_bytes, FitsPoint, face, face_bytes, FitsTri, is_turned};

use byte_grammar::{i16_at, put_i16, put_u32, u32_at};
use mesh_data::{Name, Tri};
use oemm_octree::Point;
use std::alloc::AllocError;

/// A point, and the bytes behind it.
#[tactic(auto, unfolding(crate::specs::Geometry::point))]
pub fn point_at(bytes: &[u8]) -> Option<(Point, &[u8])>
    ensures { Finds (λ x. (x.0, x.1.now)) result (point bytes.now) }
{
    let (x, rest) = i16_at(bytes)?;
    let (y, rest) = i16_at(rest)?;
    let (z, rest) = i16_at(rest)?;
    Some((Point { x, y, z }, rest))
}

/// Puts a point at the end.
#[tactic(auto, unfolding(crate::specs::Geometry::point_bytes))]
pub fn put_point(out: &mut Vec<u8>, p: &Point) -> Result<(), AllocError>
    ensures { OnOk result (out.new.items ≡ out.old.items ++ point_bytes p.now) }
{
    put_i16(out, p.x)?;
    put_i16(out, p.y)?;
    put_i16(out, p.z)?;
    Ok(())
}

/// That the coordinates of a point fit their type.
pub fn point_known(p: &Point)
    ensures { FitsPoint p.now }
{
    let _coordinates = (p.x, p.y, p.z);
}

/// That a name fits its type.
pub fn name_known(n: &Name)
    ensures { n.now < 2 ^ 32 }
{
    let _number = n.0;
}

/// A triangle, and the bytes behind it.
#[tactic(auto, unfolding(crate::specs::Geometry::face))]
pub fn face_at(bytes: &[u8]) -> Option<(Tri, &[u8])>
    ensures { Finds (λ x. (x.0, x.1.now)) result (face bytes.now) }
{
    let (a, rest) = u32_at(bytes)?;
    let (b, rest) = u32_at(rest)?;
    let (c, rest) = u32_at(rest)?;
    Some((
        Tri {
            a: Name(a),
            b: Name(b),
            c: Name(c),
        },
        rest,
    ))
}

/// Puts a triangle at the end.
#[tactic(auto, unfolding(crate::specs::Geometry::face_bytes))]
pub fn put_face(out: &mut Vec<u8>, t: &Tri) -> Result<(), AllocError>
    ensures { OnOk result (out.new.items ≡ out.old.items ++ face_bytes t.now) }
{
    put_u32(out, t.a.0)?;
    put_u32(out, t.b.0)?;
    put_u32(out, t.c.0)?;
    Ok(())
}

/// That the names of a triangle fit their type.
pub fn tri_known(t: &Tri)
    ensures { FitsTri t.now }
{
    name_known(&t.a);
    name_known(&t.b);
    name_known(&t.c);
}

/// Whether the triangle has three different names, the least one first.
#[tactic(auto, unfolding(crate::specs::Geometry::is_turned))]
pub fn is_turned(t: &Tri) -> bool
    ensures { result ≡ is_turned t.now }
{
    t.a < t.b && t.a < t.c && t.b != t.c
}
