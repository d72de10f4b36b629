//! The cells of the octree.

use crate::axis::{is_between, place_at};
use crate::points::Point;
use oemm_limits::MOST_DEPTH;
use oemm_lists::{Copied, List};
use std::alloc::{AllocError, Global};

/// A cell of the octree over the cube of the grid: the cube is cut `depth` times in halves along each
/// axis, and the cell is the part at this place along each, counted from 0. A cell that can be has a depth
/// of at most 6 and places below 2^depth.
#[derive(Clone, Copy, Debug, PartialEq, Eq)]
pub struct Cell {
    pub depth: u8,
    pub x: u8,
    pub y: u8,
    pub z: u8,
}

/// A list of cells.
pub type Cells = List<Cell>;

impl Copied for Cell {
    fn copy(&self, alloc: Global) -> Result<Cell, AllocError> {
        Ok(*self)
    }
}

impl Cell {
    ghost use Rattle.std.specs.Prelude.{◌≡◌, ◌≤◌};
    ghost use Rattle.oemm_octree.specs.Octree.{cell_holds, cell_meets};

    /// Whether the point lies in the cell.
    pub fn holds(&self, p: &Point) -> bool
        requires { self.now.depth ≤ MOST_DEPTH }
        ensures { result ≡ cell_holds self.now p.now }
    {
        place_at(self.depth, p.x) == self.x
            && place_at(self.depth, p.y) == self.y
            && place_at(self.depth, p.z) == self.z
    }

    /// Whether the cell has a point of the closed box.
    pub fn meets(&self, low: &Point, high: &Point) -> bool
        requires { self.now.depth ≤ MOST_DEPTH }
        ensures { result ≡ cell_meets low.now high.now self.now }
    {
        is_between(self.depth, low.x, high.x, self.x)
            && is_between(self.depth, low.y, high.y, self.y)
            && is_between(self.depth, low.z, high.z, self.z)
    }
}
