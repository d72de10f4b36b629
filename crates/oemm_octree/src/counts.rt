//! Counts of points in the cells of an octree.

ghost use Rattle.std.specs.Prelude.{◌≡◌, ◌+◌, ◌≤◌, List, ◌++◌, length, count_by, IfOk};
ghost use Rattle.oemm_octree.specs.Octree.{cell_holds};
ghost use Rattle.oemm_octree.specs.declared.points.Point.{Point};
ghost use Rattle.oemm_octree.specs.Morton.{rank};
ghost use Rattle.oemm_octree.specs.Counters.{AreCounters};
ghost use Rattle.oemm_octree.specs.Leaves.{IsPlaced, cells_by, is_crowded};

use crate::cells::{Cell, Cells};
use crate::codes::rank_at;
use crate::homes::on_grid;
use crate::octants::{octant, root};
use crate::points::Point;
use oemm_limits::{MOST_DEPTH, MOST_ITEMS, MOST_LEAVES};
use std::alloc::{AllocError, Global};
use std::marker::Model;

/// How many points were added, and how many of them each cell of the greatest depth holds: one megabyte.
#[derive(Debug, Drop)]
pub struct Counts {
    counters: Vec<u32>,
    added: u32,
}

impl Model for Counts {
    ghost use Rattle.oemm_octree.specs.Counters.{Tally, IsTally};

    ghost Value = { Tally };

    ghost view = { λ c. record { added = c.added; counters = c.counters.items } };

    ghost invariant = { λ c. IsTally c.added c.counters.items };
}

impl Counts {
    ghost use Rattle.std.specs.Prelude.{◌≡◌, ◌+◌, ◌<◌, List, [], ◌∷◌, ◌++◌, IfOk};
    ghost use Rattle.oemm_octree.specs.declared.points.Point.{Point};
    ghost use Rattle.oemm_octree.specs.Counters.{IsTallyOf};
    ghost use Rattle.oemm_octree.specs.Leaves.{leaves};

    /// Counts of no points.
    ///
    /// # Errors
    /// Want of memory.
    pub fn new(alloc: Global) -> Result<Counts, AllocError>
        ensures { IfOk result (λ counts. IsTallyOf counts []) }
    {
        let mut counters = Vec::new(alloc);
        counters.resize(MOST_LEAVES as usize, 0)?;
        Ok(Counts { counters, added: 0 })
    }

    /// Adds a point, by one increment.
    pub fn add(&mut self, p: Point)
        requires few { self.old.added < MOST_ITEMS }
        ensures added { self.new.added ≡ self.old.added + 1 }
        ensures points { (points : List Point) → IsTallyOf self.old points → IsTallyOf self.new (points ++ p ∷ []) }
    {
        on_grid(&p);
        let place = rank_at(MOST_DEPTH, &p) as usize;
        self.counters[place] += 1;
        self.added += 1;
    }

    /// The leaves over the points that were added, in depth-first order: a cell with more than `cap` of them is
    /// split, down to the greatest depth. It reads each counter once.
    ///
    /// # Errors
    /// Want of memory.
    pub fn leaves(&self, alloc: Global, cap: u32) -> Result<Cells, AllocError>
        ensures { (points : List Point) → IsTallyOf self.now points
            → IfOk result (λ cells. cells ≡ leaves points cap) }
    {
        let mut cells = Vec::new(alloc);
        grow(
            self.counters.as_slice(),
            cap,
            MOST_DEPTH,
            root(),
            0,
            &mut cells,
        )?;
        Ok(Cells::from_vec(cells))
    }
}

/// Puts the leaves of a cell behind other cells, and answers how many points the cell holds.
fn grow(
    counters: &[u32],
    cap: u32,
    more: u8,
    c: Cell,
    number: u32,
    cells: &mut Vec<Cell>,
) -> Result<u32, AllocError>
    requires whole { length counters.now ≡ MOST_LEAVES }
    requires depth { c.depth + more ≡ MOST_DEPTH }
    requires placed { IsPlaced c }
    requires number { number ≡ rank c }
    ensures { (points : List Point) → length points ≤ MOST_ITEMS → AreCounters counters.now points
        → IfOk result (λ n. (n ≡ count_by (cell_holds c) points)
        × (cells.new.items ≡ cells.old.items ++ cells_by (is_crowded points cap) more c)) }
{
    if more == 0 {
        cells.push(c)?;
        return Ok(counters[number as usize]);
    }
    let start = cells.as_slice().len();
    let mut total: u32 = 0;
    for i in 0..8 {
        let n = grow(
            counters,
            cap,
            more - 1,
            octant(c, i),
            8 * number + u32::from(i),
            cells,
        )?;
        total = total.saturating_add(n);
    }
    if total <= cap {
        cells.truncate(start);
        cells.push(c)?;
    }
    Ok(total)
}
