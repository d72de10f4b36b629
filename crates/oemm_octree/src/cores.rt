//! The cores of boxes in an octree.

ghost use Rattle.std.specs.Prelude.{◌≡◌, length, IfOk};
ghost use Rattle.oemm_octree.specs.Octree.{core_of};
ghost use Rattle.oemm_octree.specs.Leaves.{AreTiles};

use crate::areas::core_leaves;
use crate::cells::Cells;
use crate::leaves::LeafSet;
use crate::points::Point;
use std::alloc::{AllocError, Global};

/// The number of leaves of an octree whose cells have a point of the closed box. It is one pass over the cells.
#[tactic(auto, using(crate::proofs::Searches::depth_or, crate::proofs::Searches::few_tiles))]
pub fn count_meeting(cells: &Cells, low: Point, high: Point) -> u32
    requires { AreTiles cells.now }
    ensures { result ≡ length (core_of cells.now low high) }
{
    let mut count: u32 = 0;
    for cell in cells.slice() {
        if cell.meets(&low, &high) {
            count += 1;
        }
    }
    count
}

/// The core of the closed box: the leaves of an octree whose cells have a point of it, ascending. It is one pass
/// over the cells.
///
/// # Errors
/// Want of memory.
#[tactic(auto, using(crate::proofs::Each::depths, crate::proofs::Searches::few_tiles))]
pub fn meeting(alloc: Global, cells: &Cells, low: Point, high: Point) -> Result<LeafSet, AllocError>
    requires { AreTiles cells.now }
    ensures { IfOk result (λ core. core ≡ core_of cells.now low high) }
{
    core_leaves(alloc, cells, &low, &high)
}
