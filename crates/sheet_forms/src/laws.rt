//! Which meshes can stand in sheets, and which sheets make a well-formed patch.

ghost use Rattle.std.specs.Prelude.{◌≡◌, ◌<◌, ◌≤◌, ◌++◌, ℕ, List, map, length, true, All};
ghost use Rattle.std.specs.List.Sorted.{IsStrictlyIncreasing};
ghost use Rattle.oemm_limits.specs.declared.TheConstants.{MOST_ITEMS};
ghost use Rattle.oemm_octree.specs.declared.cells.Cell.{Cell};
ghost use Rattle.oemm_octree.specs.Leaves.{AreBelow, AreTiles};
ghost use Rattle.oemm_octree.specs.Octree.{IsOnGrid};
ghost use Rattle.mesh_data.specs.declared.edits.Task.{Task};
ghost use Rattle.mesh_data.specs.declared.geometry.Soup.{Soup};
ghost use Rattle.mesh_data.specs.Manifold.{IsManifold};
ghost use Rattle.mesh_data.specs.Mesh.{Mesh, start};
ghost use Rattle.mesh_data.specs.Rings.{are_distinct};
ghost use Rattle.mesh_data.specs.Work.{do_task, play};
ghost use Rattle.sheet_data.specs.declared.sheets.LeafSheet.{LeafSheet};
ghost use Rattle.mesh_sheets.specs.Assembled.{assembled, rim_of};
ghost use Rattle.mesh_sheets.specs.Sheets.{patch, sheet};
ghost use Rattle.sheet_forms.specs.Formed.{AreAgreed, AreGiven, IsPatchFor, IsSheetOf};
ghost use Rattle.sheet_forms.specs.Storable.{IsStorable};

/// The start mesh of a manifold over the grid can stand in the sheets of each octree, and so can each mesh that a
/// task, or a play, leads to from one that can.
pub fn storable_laws()
    ensures begins { (cells : List Cell) (s : Soup) → AreTiles cells → All IsOnGrid s.points
        → length s.faces ≤ MOST_ITEMS → IsManifold (start s) → IsStorable cells (length s.points) (start s) }
    ensures task { (cells : List Cell) (limit names : ℕ) (m : Mesh) (task : Task) → AreTiles cells
        → IsStorable cells names m → IsStorable cells names (do_task cells limit m task).mesh }
    ensures play { (cells : List Cell) (limit names : ℕ) (m : Mesh) (tasks : List Task) → AreTiles cells
        → IsStorable cells names m → IsStorable cells names (play cells limit m tasks).mesh }
{}

/// Each sheet of such a mesh is one that its leaf can have, the sheets of different leaves don't clash, and its patch
/// is well formed. A core and the leaves round it are different.
pub fn sheet_laws()
    ensures sheets { (cells : List Cell) (names : ℕ) (m : Mesh) (leaf : ℕ) → IsStorable cells names m
        → leaf < length cells → IsSheetOf cells names leaf (sheet cells m leaf) }
    ensures agree { (cells : List Cell) (names : ℕ) (m : Mesh) (core rim : List ℕ) → IsStorable cells names m
        → are_distinct (core ++ rim) ≡ true → AreAgreed (map (sheet cells m) core) (map (sheet cells m) rim) }
    ensures rim { (cells : List Cell) (core : List ℕ) (inner : List LeafSheet) → IsStrictlyIncreasing core
        → are_distinct (core ++ rim_of cells core inner) ≡ true }
    ensures patch { (cells : List Cell) (names : ℕ) (m : Mesh) (core : List ℕ) → names ≤ MOST_ITEMS
        → IsStorable cells names m → AreBelow (length cells) core → IsStrictlyIncreasing core
        → IsPatchFor cells core (patch cells m core) }
{}

/// A sheet has no more vertices than there are names, no more near leaves than there are leaves, and that of a mesh that
/// can stand in sheets no more faces than a mesh has.
pub fn count_laws()
    ensures vertices { (cells : List Cell) (names leaf : ℕ) (s : LeafSheet) → IsSheetOf cells names leaf s
        → length s.vertices ≤ names }
    ensures near { (cells : List Cell) (names leaf : ℕ) (s : LeafSheet) → IsSheetOf cells names leaf s
        → length s.near ≤ length cells }
    ensures faces { (cells : List Cell) (names : ℕ) (m : Mesh) (leaf : ℕ) → IsStorable cells names m
        → length (sheet cells m leaf).faces ≤ MOST_ITEMS }
{}

/// Over every store: sheets of a core and of other leaves, each one that its leaf can have, make a patch that is well
/// formed for the core, if they don't clash.
pub fn patch_laws()
    ensures { (cells : List Cell) (names : ℕ) (core : List ℕ) (inner outer : List LeafSheet)
        → AreGiven cells names core inner outer → AreAgreed inner outer
        → IsPatchFor cells core (assembled core inner outer) }
{}
