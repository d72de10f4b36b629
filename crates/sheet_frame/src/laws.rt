//! What edits, tasks and plays keep of clean meshes, of the sheets of other leaves and of the patches of other cores.

ghost use Rattle.std.specs.Prelude.{◌≡◌, ◌≤◌, ℕ, Bool, List, false, length};
ghost use Rattle.oemm_octree.specs.declared.cells.Cell.{Cell};
ghost use Rattle.oemm_octree.specs.declared.points.Point.{Point};
ghost use Rattle.oemm_octree.specs.Leaves.{AreBelow, AreTiles, is_one_of};
ghost use Rattle.oemm_octree.specs.Octree.{area_of, is_inside};
ghost use Rattle.mesh_data.specs.declared.edits.Edit.{Edit};
ghost use Rattle.mesh_data.specs.declared.edits.Task.{Task};
ghost use Rattle.mesh_data.specs.declared.geometry.Soup.{Soup};
ghost use Rattle.mesh_data.specs.Manifold.{IsManifold};
ghost use Rattle.mesh_data.specs.Mesh.{Mesh, start};
ghost use Rattle.mesh_data.specs.Work.{do_task, play, work};
ghost use Rattle.work_topology.specs.Ordered.{IsOrderedManifold};
ghost use Rattle.mesh_sheets.specs.Clean.{IsClean};
ghost use Rattle.mesh_sheets.specs.Sheets.{AreApart, patch, sheet};

/// A manifold whose triangles stand in order is clean, as the start mesh of a manifold is. Edits in a row, a task and
/// a play leave a clean mesh clean.
pub fn clean_laws()
    ensures ordered { (m : Mesh) → IsOrderedManifold m → IsClean m }
    ensures begins { (s : Soup) → IsManifold (start s) → IsClean (start s) }
    ensures work { (inside : Point → Bool) (m : Mesh) (edits : List Edit) → IsClean m
        → IsClean (work inside m edits).mesh }
    ensures task { (cells : List Cell) (limit : ℕ) (m : Mesh) (task : Task) → IsClean m
        → IsClean (do_task cells limit m task).mesh }
    ensures play { (cells : List Cell) (limit : ℕ) (m : Mesh) (tasks : List Task) → IsClean m
        → IsClean (play cells limit m tasks).mesh }
{}

/// And they leave no more triangles.
pub fn count_laws()
    ensures work { (inside : Point → Bool) (m : Mesh) (edits : List Edit) → IsClean m
        → length (work inside m edits).mesh.tris ≤ length m.tris }
    ensures play { (cells : List Cell) (limit : ℕ) (m : Mesh) (tasks : List Task) → IsClean m
        → length (play cells limit m tasks).mesh.tris ≤ length m.tris }
{}

/// Edits on a core leave the sheets of all other leaves, and the patches of the cores that have no leaf of it. So does
/// a task, by the core of its entry, which is empty where it was wide.
pub fn frame_laws()
    ensures sheets { (cells : List Cell) (core : List ℕ) (m : Mesh) (edits : List Edit) (leaf : ℕ) → AreTiles cells
        → AreBelow (length cells) core → IsClean m → is_one_of core leaf ≡ false
        → sheet cells (work (is_inside (area_of cells core)) m edits).mesh leaf ≡ sheet cells m leaf }
    ensures patches { (cells : List Cell) (core other : List ℕ) (m : Mesh) (edits : List Edit) → AreTiles cells
        → AreBelow (length cells) core → IsClean m → AreApart core other
        → patch cells (work (is_inside (area_of cells core)) m edits).mesh other ≡ patch cells m other }
    ensures task_sheets { (cells : List Cell) (limit : ℕ) (m : Mesh) (task : Task) (leaf : ℕ) → AreTiles cells
        → IsClean m → is_one_of (do_task cells limit m task).entry.core leaf ≡ false
        → sheet cells (do_task cells limit m task).mesh leaf ≡ sheet cells m leaf }
    ensures task_patches { (cells : List Cell) (limit : ℕ) (m : Mesh) (task : Task) (other : List ℕ) → AreTiles cells
        → IsClean m → AreApart (do_task cells limit m task).entry.core other
        → patch cells (do_task cells limit m task).mesh other ≡ patch cells m other }
{}
