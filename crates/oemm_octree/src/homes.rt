//! Homes of points.

ghost use Rattle.std.specs.Prelude.{◌≡◌, true};
ghost use Rattle.oemm_octree.specs.Leaves.{AreTiles, home};
ghost use Rattle.oemm_octree.specs.Octree.{IsOnGrid, on_grid};

use crate::cells::Cells;
use crate::codes::is_up_to;
use crate::leaves::LeafNo;
use crate::points::Point;

/// The leaf whose cell holds the point, found by halves: in the time of a binary search over the cells.
pub fn home_of(cells: &Cells, p: Point) -> LeafNo
    requires { AreTiles cells.now }
    ensures { result ≡ home cells.now p }
{
    on_grid(&p);
    let mut low = 0;
    let mut high = cells.len();
    while high - low > 1 {
        let mid = low + (high - low) / 2;
        if is_up_to(cells.at(mid), &p) {
            low = mid;
        } else {
            high = mid;
        }
    }
    LeafNo(low as u32)
}

/// That the point's coordinates, of 16 bits each, are those of the grid.
pub fn on_grid(p: &Point)
    ensures { IsOnGrid p.now }
{
    on_axis(p.x);
    on_axis(p.y);
    on_axis(p.z);
}

fn on_axis(n: i16)
    ensures { on_grid n ≡ true }
{}
