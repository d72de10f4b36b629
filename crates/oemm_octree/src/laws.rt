//! What follows from the definitions of cells, leaves, homes and cores.

ghost use Rattle.std.specs.Prelude.{◌≡◌, ◌<◌, ◌≤◌, ℕ, List, Some, length, slice_get, true, ◌↔◌};
ghost use Rattle.std.specs.List.{All};
ghost use Rattle.oemm_octree.specs.declared.cells.Cell.{Cell};
ghost use Rattle.oemm_octree.specs.declared.points.Point.{Point};
ghost use Rattle.oemm_octree.specs.Octree.{AreCells, IsAtMost, IsInPart, IsOnGrid, area_of, cell_holds, cell_meets, core_of, is_inside};
ghost use Rattle.oemm_octree.specs.Leaves.{AreBelow, AreTiles, IsPlaced, home, in_core, leaves};

use oemm_limits::MOST_LEAVES;

/// That a cell holds a point of the grid exactly where each coordinate lies in the cell's part of its axis, and that
/// it meets a closed box exactly where it holds some point of the box.
pub fn cell_laws()
    ensures holds { (c : Cell) (p : Point) → IsOnGrid p
        → (cell_holds c p ≡ true) ↔ (IsInPart c.depth c.x p.x × IsInPart c.depth c.y p.y × IsInPart c.depth c.z p.z) }
    ensures meets { (c : Cell) (low high : Point) → IsOnGrid low → IsOnGrid high
        → (cell_meets low high c ≡ true) ↔ ((p : Point) × IsAtMost low p × IsAtMost p high × (cell_holds c p ≡ true)) }
{}

/// That the leaves over points tile the cube, and that cells that tile it are at most as many as there are cells of
/// the greatest depth, none of them deeper, and each at places of its depth.
pub fn tile_laws()
    ensures leaves { (points : List Point) (cap : ℕ) → AreTiles (leaves points cap) }
    ensures depths { (cells : List Cell) → AreTiles cells → AreCells cells }
    ensures places { (cells : List Cell) → AreTiles cells → All IsPlaced cells }
    ensures few { (cells : List Cell) → AreTiles cells → length cells ≤ MOST_LEAVES }
{}

/// That of cells that tile the cube each point of the grid has exactly one, which is its home; that no point at all
/// lies in two of them; and that the points in the cells of a core are those whose home is in it.
pub fn home_laws()
    ensures home { (cells : List Cell) (p : Point) → AreTiles cells → IsOnGrid p → home cells p < length cells }
    ensures alone { (cells : List Cell) (p : Point) (leaf : ℕ) (c : Cell) → AreTiles cells
        → slice_get cells leaf ≡ Some c → (cell_holds c p ≡ true) ↔ (home cells p ≡ leaf) }
    ensures apart { (cells : List Cell) (p : Point) (leaf other : ℕ) (c e : Cell) → AreTiles cells
        → slice_get cells leaf ≡ Some c → slice_get cells other ≡ Some e
        → cell_holds c p ≡ true → cell_holds e p ≡ true → leaf ≡ other }
    ensures core { (cells : List Cell) (core : List ℕ) → AreTiles cells → AreBelow (length cells) core
        → is_inside (area_of cells core) ≡ in_core cells core }
{}

/// That the core of a closed box has the home of each point of the box, and so isn't empty where the box isn't; and
/// that it has no number but those of leaves.
pub fn core_laws()
    ensures homes { (cells : List Cell) (low high p : Point) → AreTiles cells → IsOnGrid low → IsOnGrid high
        → IsAtMost low p → IsAtMost p high → in_core cells (core_of cells low high) p ≡ true }
    ensures some { (cells : List Cell) (low high : Point) → AreTiles cells → IsOnGrid low → IsOnGrid high
        → IsAtMost low high → 0 < length (core_of cells low high) }
    ensures below { (cells : List Cell) (low high : Point) → AreBelow (length cells) (core_of cells low high) }
{}
