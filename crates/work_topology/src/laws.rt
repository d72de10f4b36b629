//! What edits, work, tasks and plays keep.

ghost use Rattle.std.specs.Prelude.{◌≡◌, ℕ, Bool, List, true, false};
ghost use Rattle.mesh_data.specs.declared.edits.Edit.{Edit};
ghost use Rattle.mesh_data.specs.declared.edits.Task.{Task};
ghost use Rattle.oemm_octree.specs.declared.cells.Cell.{Cell};
ghost use Rattle.oemm_octree.specs.declared.points.Point.{Point};
ghost use Rattle.mesh_data.specs.declared.geometry.Soup.{Soup};
ghost use Rattle.mesh_data.specs.Edits.{after, moved, verdict};
ghost use Rattle.mesh_data.specs.Keeps.{EachKeeps, Keeps};
ghost use Rattle.mesh_data.specs.Manifold.{IsManifold};
ghost use Rattle.mesh_data.specs.Mesh.{Mesh, start};
ghost use Rattle.mesh_data.specs.Seen.{seen};
ghost use Rattle.mesh_data.specs.Work.{do_task, play, work};
ghost use Rattle.work_topology.specs.Ordered.{IsOrderedManifold};
ghost use Rattle.work_topology.specs.Rim.{KeepsRim};

/// Each edit keeps an oriented 2-manifold, its Euler characteristic and its border, whatever its answer. A move does so
/// wherever it goes.
pub fn edit_keep_laws()
    ensures moves { (m : Mesh) (v : ℕ) (to : Point) → IsManifold m → Keeps m (moved m v to) }
    ensures edit { (inside : Point → Bool) (m : Mesh) (e : Edit) → IsManifold m
        → Keeps m (after m e (verdict inside m e)) }
{}

/// Edits in a row, each task, each of the tasks of a play, and a play from its start to its end keep them.
pub fn work_keep_laws()
    ensures work { (inside : Point → Bool) (m : Mesh) (edits : List Edit) → IsManifold m
        → Keeps m (work inside m edits).mesh }
    ensures task { (cells : List Cell) (limit : ℕ) (m : Mesh) (task : Task) → IsManifold m
        → Keeps m (do_task cells limit m task).mesh }
    ensures each { (cells : List Cell) (limit : ℕ) (m : Mesh) (tasks : List Task) → IsManifold m
        → EachKeeps cells limit m tasks }
    ensures play { (cells : List Cell) (limit : ℕ) (m : Mesh) (tasks : List Task) → IsManifold m
        → Keeps m (play cells limit m tasks).mesh }
{}

/// The triangles of a start mesh stand in order, and work leaves those of a manifold in order.
pub fn order_laws()
    ensures begins { (s : Soup) → IsManifold (start s) → IsOrderedManifold (start s) }
    ensures work { (inside : Point → Bool) (m : Mesh) (edits : List Edit) → IsOrderedManifold m
        → IsOrderedManifold (work inside m edits).mesh }
{}

/// The work of edits on one area leaves what a disjoint area sees.
pub fn frame_laws()
    ensures { (inside other : Point → Bool) → ((p : Point) → inside p ≡ true → other p ≡ false)
        → (m : Mesh) (edits : List Edit) → IsOrderedManifold m → seen other (work inside m edits).mesh ≡ seen other m }
{}

/// It leaves the triangles at the rim of its own area, with their vertices.
pub fn rim_laws()
    ensures { (inside : Point → Bool) (m : Mesh) (edits : List Edit) → IsOrderedManifold m
        → KeepsRim inside m (work inside m edits).mesh }
{}
