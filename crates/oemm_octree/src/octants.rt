//! The whole cube, and the octants of a cell.

ghost use Rattle.std.specs.Prelude.{◌≡◌, ◌<◌, ◌+◌, ◌*◌, ◌^◌, slice_get, Some};
ghost use Rattle.oemm_octree.specs.Octree.{root_cell};
ghost use Rattle.oemm_octree.specs.Leaves.{octants, IsPlaced};

use crate::cells::Cell;
use oemm_limits::MOST_DEPTH;

/// The whole cube.
pub fn root() -> Cell
    ensures { result ≡ root_cell }
{
    Cell {
        depth: 0,
        x: 0,
        y: 0,
        z: 0,
    }
}

/// The octant of a cell with a number from 0 to 7: one for the upper half of x, and two of y, and four of z.
pub fn octant(c: Cell, number: u8) -> Cell
    requires depth { c.depth < MOST_DEPTH }
    requires placed { IsPlaced c }
    requires number { number < 8 }
    ensures octant { slice_get (octants c) number ≡ Some result }
    ensures deeper { result.depth ≡ c.depth + 1 }
    ensures placed { IsPlaced result }
{
    Cell {
        depth: c.depth + 1,
        x: half(c.depth, c.x, number % 2),
        y: half(c.depth, c.y, number / 2 % 2),
        z: half(c.depth, c.z, number / 4),
    }
}

/// The place of the lower half (0) or the upper half (1) of a part of an axis.
fn half(depth: u8, place: u8, upper: u8) -> u8
    requires depth { depth < MOST_DEPTH }
    requires placed { place < 2 ^ depth }
    requires upper { upper < 2 }
    ensures place { result ≡ 2 * place + upper }
    ensures below { result < 2 ^ (depth + 1) }
{
    2 * place + upper
}
