//! What the link condition says of a collapse.

ghost use Rattle.std.specs.Prelude.{◌≡◌, ◌==◌, ◌&&◌, List, length};
ghost use Rattle.mesh_data.specs.declared.geometry.Tri.{Tri};
ghost use Rattle.link_test.specs.Links.{AreRings, Tells};

use crate::neighbours::{link_violation, name_after, name_before};
use mesh_data::Name;

/// What the link condition says of the collapse of a vertex u onto its neighbour v.
#[derive(Clone, Copy, Debug, PartialEq, Eq)]
pub enum Link {
    /// The collapse keeps the surface.
    Good,
    /// This vertex is a neighbour of both and not opposite of their edge, and no lesser one is.
    Shared(Name),
    /// Both have closed rings of three names: the collapse would close the surface up.
    Closed,
}

/// The number of names of the shortest closed ring.
const FEWEST: usize = 3;

/// Whether the rings, the first of which is closed, are both closed and have three names.
fn are_closed_by_three(ring_u: &[Name], ring_v: &[Name], closed_v: bool) -> bool
    ensures { result ≡ (length ring_u.now == 3 && (closed_v && length ring_v.now == 3)) }
{
    ring_u.len() == FEWEST && closed_v && ring_v.len() == FEWEST
}

/// What the link condition says of the collapse of u onto v, by the closed ring of u and the ring of v in any list of
/// triangles, each of three different names and no directed edge in two of them, in which u and v are adjacent. It
/// takes no memory, and time of about the product of the numbers of names of the rings.
pub fn verdict(ring_u: &[Name], ring_v: &[Name], closed_v: bool, u: Name, v: Name) -> Link
    ensures { (ts : List Tri) → AreRings ts ring_u.now ring_v.now closed_v u v → Tells ts u v result }
{
    let ahead = name_after(ring_u, v);
    let behind = name_before(ring_u, v);
    if let Some(w) = link_violation(ring_u, ring_v, &ahead, &behind) {
        return Link::Shared(w);
    }
    if are_closed_by_three(ring_u, ring_v, closed_v) {
        Link::Closed
    } else {
        Link::Good
    }
}
