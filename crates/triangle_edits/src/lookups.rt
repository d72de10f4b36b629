//! Neighbours, and the third name of an edge's triangle.

ghost use Rattle.std.specs.Prelude.{◌≡◌};
ghost use Rattle.mesh_data.specs.Links.{has_both, are_neighbours, apex, opposites};
ghost use Rattle.mesh_data.specs.Triangles.{has_corner};
ghost use Rattle.triangle_edits.specs.Links.{apex_in};

use mesh_data::{Name, Tri};

/// Whether the triangle has the name.
pub fn has_corner(v: Name, t: &Tri) -> bool
    ensures { result ≡ has_corner v t.now }
{
    t.a == v || t.b == v || t.c == v
}

/// Whether the triangle has both names.
pub(crate) fn has_both(u: Name, v: Name, t: &Tri) -> bool
    ensures { result ≡ has_both u v t.now }
{
    has_corner(u, t) && has_corner(v, t)
}

/// Whether some triangle has both names.
pub fn are_neighbours(tris: &[Tri], u: Name, v: Name) -> bool
    ensures { result ≡ are_neighbours tris.now u v }
{
    tris.iter().any(|t| has_both(u, v, t))
}

/// The third name of the triangle, if it has the directed edge from a to b.
fn apex_in(t: &Tri, a: Name, b: Name) -> Option<Name>
    ensures { result ≡ apex_in t.now a b }
{
    if t.a == a && t.b == b {
        Some(t.c)
    } else if t.b == a && t.c == b {
        Some(t.a)
    } else if t.c == a && t.a == b {
        Some(t.b)
    } else {
        None
    }
}

/// The third name of the first triangle that has the directed edge from a to b, if one does.
pub fn apex(tris: &[Tri], a: Name, b: Name) -> Option<Name>
    ensures { result ≡ apex tris.now a b }
{
    for t in tris {
        let third = apex_in(t, a, b);
        if third.is_some() {
            return third;
        }
    }
    None
}

/// The two names that lie opposite of the edge of a and b, if it has a triangle in both directions: that of the edge
/// from a to b comes first.
pub fn opposites(tris: &[Tri], a: Name, b: Name) -> Option<(Name, Name)>
    ensures { result ≡ opposites tris.now a b }
{
    apex(tris, a, b).zip(apex(tris, b, a))
}
