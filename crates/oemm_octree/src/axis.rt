//! Places along one axis of the grid.

ghost use Rattle.std.specs.Prelude.{◌≡◌, ◌≤◌, ◌<◌};
ghost use Rattle.oemm_octree.specs.Octree.{from_low, place_at, is_between};

use oemm_limits::MOST_DEPTH;

/// How far a coordinate lies above the low end of its axis.
#[tactic(auto, unfolding(crate::specs::Octree::from_low))]
fn from_low(n: i16) -> u32
    ensures steps { result ≡ from_low n }
    ensures small { result < 65536 }
{
    (i32::from(n) + 32768) as u32
}

/// The place of the cells of a depth along one axis that have the coordinate.
#[tactic(auto, unfolding(crate::specs::Octree::place_at))]
pub fn place_at(depth: u8, n: i16) -> u8
    requires { depth ≤ MOST_DEPTH }
    ensures { result ≡ place_at depth n }
{
    (from_low(n) >> (16 - u32::from(depth))) as u8
}

/// Whether the cells at a place along one axis have a coordinate from `low` to `high`.
#[tactic(auto, unfolding(crate::specs::Octree::is_between))]
pub fn is_between(depth: u8, low: i16, high: i16, place: u8) -> bool
    requires { depth ≤ MOST_DEPTH }
    ensures { result ≡ is_between depth low high place }
{
    low <= high && place_at(depth, low) <= place && place <= place_at(depth, high)
}
