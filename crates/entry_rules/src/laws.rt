//! What follows from the definitions of edits, and of the rules of spellings.

ghost use Rattle.std.specs.Prelude.{◌≡◌, ◌≤◌, ℕ, Bool, true, All, List, length};
ghost use Rattle.oemm_limits.specs.declared.TheConstants.{MOST_ITEMS};
ghost use Rattle.oemm_octree.specs.declared.cells.Cell.{Cell};
ghost use Rattle.oemm_octree.specs.declared.points.Point.{Point};
ghost use Rattle.oemm_octree.specs.Leaves.{AreTiles};
ghost use Rattle.oemm_octree.specs.Octree.{IsOnGrid};
ghost use Rattle.mesh_data.specs.declared.edits.Edit.{Edit};
ghost use Rattle.mesh_data.specs.declared.edits.Task.{Task};
ghost use Rattle.mesh_data.specs.declared.geometry.Soup.{Soup};
ghost use Rattle.mesh_data.specs.Edits.{verdict};
ghost use Rattle.mesh_data.specs.Manifold.{IsManifold};
ghost use Rattle.mesh_data.specs.Mesh.{Mesh, start};
ghost use Rattle.mesh_data.specs.Work.{do_task, play};
ghost use Rattle.sheet_data.specs.declared.index.NumberedEntry.{NumberedEntry};
ghost use Rattle.leaf_codec.specs.Entries.{FitsEntry, KeepsEntryRules};
ghost use Rattle.leaf_codec.specs.Replies.{is_reply, may_answer};
ghost use Rattle.entry_rules.specs.OnGrid.{IsMeshOnGrid, IsTaskOnGrid};

/// Over a mesh of the grid, each edit answers a reply that may stand beside it, within the ranges of replies.
pub fn reply_laws()
    ensures answers { (inside : Point → Bool) (m : Mesh) (edit : Edit) → IsMeshOnGrid m
        → may_answer edit (verdict inside m edit) ≡ true }
    ensures ranges { (inside : Point → Bool) (m : Mesh) (edit : Edit) → IsMeshOnGrid m
        → is_reply (verdict inside m edit) ≡ true }
{}

/// The start mesh of a manifold over the grid is one of the grid, and so is what a task, or a play, of the grid leaves of
/// one. What an entry that has a spelling says is a task of the grid.
pub fn grid_laws()
    ensures begins { (s : Soup) → All IsOnGrid s.points → length s.points ≤ MOST_ITEMS → length s.faces ≤ MOST_ITEMS
        → IsManifold (start s) → IsMeshOnGrid (start s) }
    ensures task { (cells : List Cell) (limit : ℕ) (m : Mesh) (task : Task) → IsMeshOnGrid m → IsTaskOnGrid task
        → IsMeshOnGrid (do_task cells limit m task).mesh }
    ensures play { (cells : List Cell) (limit : ℕ) (m : Mesh) (tasks : List Task) → IsMeshOnGrid m
        → All IsTaskOnGrid tasks → IsMeshOnGrid (play cells limit m tasks).mesh }
    ensures read { (n : NumberedEntry) → FitsEntry n → KeepsEntryRules n → IsTaskOnGrid n.entry.task }
{}

/// The entry of a task of the grid on a mesh of the grid keeps the rules of its spelling, under any number; so does each
/// entry of a play.
pub fn entry_laws()
    ensures task { (cells : List Cell) (limit : ℕ) (m : Mesh) (task : Task) (number : ℕ) → AreTiles cells
        → IsMeshOnGrid m → IsTaskOnGrid task
        → KeepsEntryRules (record { number = number; entry = (do_task cells limit m task).entry }) }
    ensures play { (cells : List Cell) (limit : ℕ) (m : Mesh) (tasks : List Task) → AreTiles cells → IsMeshOnGrid m
        → All IsTaskOnGrid tasks → All (λ e. (number : ℕ) → KeepsEntryRules (record { number = number; entry = e }))
        (play cells limit m tasks).journal }
{}
