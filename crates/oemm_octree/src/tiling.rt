//! Whether cells tile the cube.

ghost use Rattle.std.specs.Prelude.{◌≡◌, ◌+◌, ◌≤◌, None, Some, MatchOption, IsTrue, ◌↔◌};
ghost use Rattle.oemm_octree.specs.Leaves.{AreTiles, IsPlaced};
ghost use Rattle.oemm_octree.specs.Walks.{walk};

use crate::cells::{Cell, Cells};
use crate::octants::{octant, root};
use oemm_limits::MOST_DEPTH;

/// Whether the cells tile the cube in depth-first order, none of them deeper than can be. It is one walk along them.
pub fn tiles(cells: &Cells) -> bool
    ensures { IsTrue result ↔ AreTiles cells.now }
{
    match walk(MOST_DEPTH, root(), cells.slice()) {
        Some(rest) => rest.is_empty(),
        None => false,
    }
}

/// What is left of the cells behind those that tile the cell, if the first ones do.
fn walk<'a>(more: u8, c: Cell, cells: &'a [Cell]) -> Option<&'a [Cell]>
    requires depth { c.depth + more ≤ MOST_DEPTH }
    requires placed { IsPlaced c }
    ensures { MatchOption result (walk more c cells.now ≡ None) (λ rest. walk more c cells.now ≡ Some rest.now) }
{
    let (first, rest) = match cells.split_first() {
        Some(parts) => parts,
        None => return None,
    };
    if c == *first {
        return Some(rest);
    }
    if more == 0 {
        return None;
    }
    let mut left = cells;
    for number in 0..8 {
        match walk(more - 1, octant(c, number), left) {
            Some(rest) => left = rest,
            None => return None,
        }
    }
    Some(left)
}
