//! Tasks that go over an octree leaf by leaf.

ghost use Rattle.std.specs.Prelude.{◌≡◌, ◌≤◌, ◌<◌, ◌^◌, ◌-◌, ◌*◌, pos, ◌-ℤ◌, length, IfOk};
ghost use Rattle.oemm_octree.specs.Leaves.{AreBelow, AreTiles, IsPlaced};
ghost use Rattle.oemm_make.specs.Tiles.{high_corner, high_end, low_corner, low_end, task_of, tiles};

use mesh_data::{Edit, Lane, List, Task, Tasks};
use oemm_limits::{LAST_LANE, MOST_DEPTH, MOST_LEAVES};
use oemm_octree::{Cell, Cells, LeafNo, LeafSet, Point};
use std::alloc::{AllocError, Global};

/// The number of lanes.
const LANES: usize = LAST_LANE as usize + 1;

/// The number of coordinates along an axis.
const COORDINATES: u32 = 65536;

/// How many coordinates the parts of an axis before a place have, where cells of this depth cut it.
#[tactic(auto, using(crate::proofs::Ends::width_is, crate::proofs::Ends::part_within, crate::proofs::Ends::part_below))]
fn before(depth: u8, place: u32) -> u32
    requires depth { depth ≤ MOST_DEPTH }
    requires place { place ≤ 2 ^ depth }
    ensures exact { result ≡ place * 2 ^ (16 - depth) }
    ensures within { result ≤ COORDINATES }
    ensures below { place < 2 ^ depth → result < COORDINATES }
{
    place * (COORDINATES >> depth)
}

/// The coordinate that has so many before it on its axis.
fn coordinate(before: u32) -> i16
    requires { before < COORDINATES }
    ensures { result ≡ pos before -ℤ pos 32768 }
{
    (before as i32 - 32768) as i16
}

/// The first coordinate of the part of an axis at a place.
#[tactic(auto, unfolding(crate::specs::Tiles::low_end))]
fn low_end(depth: u8, place: u8) -> i16
    requires depth { depth ≤ MOST_DEPTH }
    requires place { place < 2 ^ depth }
    ensures { result ≡ low_end depth place }
{
    coordinate(before(depth, u32::from(place)))
}

/// The first coordinate of the next part, or the last one of the axis.
#[tactic(auto, unfolding(crate::specs::Tiles::high_end))]
fn high_end(depth: u8, place: u8) -> i16
    requires depth { depth ≤ MOST_DEPTH }
    requires place { place < 2 ^ depth }
    ensures { result ≡ high_end depth place }
{
    coordinate(before(depth, u32::from(place) + 1).min(COORDINATES - 1))
}

fn low_corner(cell: &Cell) -> Point
    requires depth { cell.now.depth ≤ MOST_DEPTH }
    requires places { IsPlaced cell.now }
    ensures { result ≡ low_corner cell.now }
{
    Point {
        x: low_end(cell.depth, cell.x),
        y: low_end(cell.depth, cell.y),
        z: low_end(cell.depth, cell.z),
    }
}

fn high_corner(cell: &Cell) -> Point
    requires depth { cell.now.depth ≤ MOST_DEPTH }
    requires places { IsPlaced cell.now }
    ensures { result ≡ high_corner cell.now }
{
    Point {
        x: high_end(cell.depth, cell.x),
        y: high_end(cell.depth, cell.y),
        z: high_end(cell.depth, cell.z),
    }
}

/// The task of one edit in a cell.
fn task_of(
    alloc: Global,
    cell: &Cell,
    lane: u8,
    number: u32,
    edit: &Edit,
) -> Result<Task, AllocError>
    requires depth { cell.now.depth ≤ MOST_DEPTH }
    requires places { IsPlaced cell.now }
    ensures { IfOk result (λ task. task ≡ task_of cell.now lane number edit.now) }
{
    let mut edits = List::new(alloc);
    edits.add(*edit)?;
    Ok(Task {
        lane: Lane(lane),
        number,
        low: low_corner(cell),
        high: high_corner(cell),
        edits,
    })
}

/// The tasks of leaves that are at most as many as an octree has.
fn tiles_of(
    alloc: Global,
    cells: &Cells,
    leaves: &[LeafNo],
    edit: &Edit,
) -> Result<Tasks, AllocError>
    requires octree { AreTiles cells.now }
    requires below { AreBelow (length cells.now) leaves.now }
    requires few { length leaves.now ≤ MOST_LEAVES }
    ensures { IfOk result (λ tasks. tasks ≡ tiles cells.now leaves.now edit.now) }
{
    let mut counts = [0u32; LANES];
    let mut tasks = Tasks::new(alloc);
    for leaf in leaves {
        let place = leaf.0 as usize;
        let lane = place % LANES;
        let task = task_of(alloc, cells.at(place), lane as u8, counts[lane], edit)?;
        tasks.add(task)?;
        counts[lane] += 1;
    }
    Ok(tasks)
}

/// A task for each of these leaves of an octree, in their order. Its lane is the leaf's number mod 64, its box begins at
/// the low corner of the leaf's cell and ends one behind its high corner, as far as the grid goes, and it has this one
/// edit.
///
/// # Errors
/// Want of memory.
pub fn tiles(
    alloc: Global,
    cells: &Cells,
    leaves: &LeafSet,
    edit: &Edit,
) -> Result<Tasks, AllocError>
    requires octree { AreTiles cells.now }
    requires below { AreBelow (length cells.now) leaves.now }
    ensures { IfOk result (λ tasks. tasks ≡ tiles cells.now leaves.now edit.now) }
{
    tiles_of(alloc, cells, leaves.slice(), edit)
}
