//! Morton codes: the numbers of the cells of a depth in depth-first order.

ghost use Rattle.std.specs.Prelude.{◌≡◌, ◌≤◌, ◌<◌, ◌^◌};
ghost use Rattle.oemm_octree.specs.Morton.{morton, is_up_to, rank_at};

use crate::axis::place_at;
use crate::cells::Cell;
use crate::points::Point;
use oemm_limits::MOST_DEPTH;

/// The number, depth first, of the cell at these places among all cells of its depth: its Morton code.
pub fn morton(depth: u8, x: u8, y: u8, z: u8) -> u32
    requires { depth ≤ MOST_DEPTH }
    ensures number { result ≡ morton depth x y z }
    ensures small { result < 8 ^ depth }
{
    if depth == 0 {
        return 0;
    }
    let octant = u32::from(x % 2) + 2 * u32::from(y % 2) + 4 * u32::from(z % 2);
    octant + 8 * morton(depth - 1, x / 2, y / 2, z / 2)
}

/// The number of the cell of a depth that holds the point.
pub fn rank_at(depth: u8, p: &Point) -> u32
    requires { depth ≤ MOST_DEPTH }
    ensures number { result ≡ rank_at depth p.now }
    ensures small { result < 8 ^ depth }
{
    morton(
        depth,
        place_at(depth, p.x),
        place_at(depth, p.y),
        place_at(depth, p.z),
    )
}

/// Whether the cell holds the point or comes before those that do.
pub fn is_up_to(c: &Cell, p: &Point) -> bool
    requires { c.now.depth ≤ MOST_DEPTH }
    ensures { result ≡ is_up_to c.now p.now }
{
    morton(c.depth, c.x, c.y, c.z) <= rank_at(c.depth, p)
}
