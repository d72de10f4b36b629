//! The leaves that a box meets, and the points that lie in them.

ghost use Rattle.std.specs.Prelude.{◌≡◌, ◌<◌, ◌^◌, [], ◌∷◌, ◌++◌, length, slice_get, IfOk, OnOk};
ghost use Rattle.oemm_octree.specs.Octree.{AreCells, core_of, area_of, is_inside};

use crate::cells::{Cell, Cells};
use crate::leaves::{LeafNo, LeafSet};
use crate::points::Point;
use std::alloc::{AllocError, Global};
use std::marker::Model;

/// The cells of a core.
#[derive(Debug, Drop)]
pub struct Area {
    cells: Vec<Cell>,
}

impl Model for Area {
    ghost use Rattle.std.specs.Prelude.{List};
    ghost use Rattle.oemm_octree.specs.declared.cells.Cell.{Cell};
    ghost use Rattle.oemm_octree.specs.Octree.{AreCells};

    ghost Value = { List Cell };

    ghost view = { λ a. a.cells.items };

    ghost invariant = { λ a. AreCells a.cells.items };
}

impl Area {
    /// The cells of these leaves.
    ///
    /// # Errors
    /// Want of memory.
    pub fn of(alloc: Global, cells: &Cells, core: &LeafSet) -> Result<Area, AllocError>
        requires { AreCells cells.now }
        ensures { IfOk result (λ area. area ≡ area_of cells.now core.now) }
    {
        let cells = core
            .slice()
            .iter()
            .filter_map(|leaf| cell_of(cells, *leaf))
            .collect(alloc)?;
        Ok(Area { cells })
    }

    /// Whether the point lies in one of the cells.
    pub fn holds(&self, p: &Point) -> bool
        ensures { result ≡ is_inside self.now p.now }
    {
        self.cells.iter().any(|cell| cell.holds(p))
    }
}

/// The leaves whose cells have a point of the closed box, ascending.
///
/// # Errors
/// Want of memory.
pub fn core_leaves(
    alloc: Global,
    cells: &Cells,
    low: &Point,
    high: &Point,
) -> Result<LeafSet, AllocError>
    requires octree { AreCells cells.now }
    requires few { length cells.now < 2 ^ 32 }
    ensures { IfOk result (λ core. core ≡ core_of cells.now low.now high.now) }
{
    let mut core = LeafSet::new(alloc);
    for (leaf, cell) in cells.slice().iter().enumerate() {
        if cell.meets(low, high) {
            core.add(LeafNo(leaf as u32))?;
        }
    }
    Ok(core)
}

fn cell_of(cells: &Cells, leaf: LeafNo) -> Option<Cell>
    ensures { result ≡ slice_get cells.now leaf }
{
    cells.slice().get(leaf.0 as usize).copied()
}
