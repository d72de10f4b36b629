//! The planes of start meshes and of edited ones.

ghost use Rattle.std.specs.Prelude.{◌≡◌, ◌≤◌, ℕ, Bool, List, All, length};
ghost use Rattle.oemm_limits.specs.declared.TheConstants.{MOST_ITEMS};
ghost use Rattle.oemm_octree.specs.declared.cells.Cell.{Cell};
ghost use Rattle.oemm_octree.specs.declared.points.Point.{Point};
ghost use Rattle.oemm_octree.specs.Octree.{IsOnGrid};
ghost use Rattle.mesh_data.specs.declared.edits.Edit.{Edit};
ghost use Rattle.mesh_data.specs.declared.edits.Task.{Task};
ghost use Rattle.mesh_data.specs.declared.geometry.Soup.{Soup};
ghost use Rattle.mesh_data.specs.Mesh.{Mesh, start};
ghost use Rattle.mesh_data.specs.Work.{do_task, play, work};
ghost use Rattle.plane_counts.specs.PlaneCounts.{HasPlanes};

/// The vertices of a start mesh over the grid have no more planes than there may be, and none that is too large. Edits
/// in a row, a task and a play keep that.
pub fn plane_laws()
    ensures begins { (s : Soup) → All IsOnGrid s.points → length s.faces ≤ MOST_ITEMS → HasPlanes (start s).vertices }
    ensures work { (inside : Point → Bool) (m : Mesh) (edits : List Edit) → HasPlanes m.vertices
        → HasPlanes (work inside m edits).mesh.vertices }
    ensures task { (cells : List Cell) (limit : ℕ) (m : Mesh) (task : Task) → HasPlanes m.vertices
        → HasPlanes (do_task cells limit m task).mesh.vertices }
    ensures play { (cells : List Cell) (limit : ℕ) (m : Mesh) (tasks : List Task) → HasPlanes m.vertices
        → HasPlanes (play cells limit m tasks).mesh.vertices }
{}
