//! The 16-bit grid, and the octree over its cube: cells, leaves over counts of points, homes, cores, areas, and
//! whether cells tile the cube.
#![tactic(auto)]

mod areas;
mod axis;
mod cells;
mod codes;
mod cores;
mod counts;
mod homes;
pub mod laws;
mod leaves;
mod octants;
mod points;
mod tiling;

pub use areas::{Area, core_leaves};
pub use cells::{Cell, Cells};
pub use cores::{count_meeting, meeting};
pub use counts::Counts;
pub use homes::home_of;
pub use leaves::{LeafNo, LeafSet};
pub use points::{Point, Points};
pub use tiling::tiles;

#[cfg(test)]
mod tests;
