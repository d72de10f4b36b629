//! What follows from the definitions of the texts that are made.

ghost use Rattle.std.specs.Prelude.{◌≡◌, ◌≤◌, ◌<◌, ◌+◌, ◌*◌, ◌-◌, ◌^◌, ◌⊎◌, ℕ, ℤ, List, Result, Ok, Some, MatchResult, length, slice_get};
ghost use Rattle.std.specs.List.Sorted.{IsStrictlyIncreasing};
ghost use Rattle.oemm_octree.specs.declared.cells.Cell.{Cell};
ghost use Rattle.oemm_octree.specs.Leaves.{AreBelow, AreTiles};
ghost use Rattle.mesh_data.specs.declared.edits.Edit.{Edit};
ghost use Rattle.mesh_data.specs.declared.edits.Edit.TheVariants.{Simplify};
ghost use Rattle.mesh_data.specs.declared.edits.Entry.{Entry};
ghost use Rattle.mesh_data.specs.declared.edits.Script.{Script};
ghost use Rattle.mesh_data.specs.declared.edits.Task.{Task};
ghost use Rattle.edit_script.specs.Grammar.{script_of};
ghost use Rattle.edit_script.specs.Script.{GivesScript};
ghost use Rattle.edit_script.specs.declared.fault.ScriptFault.{ScriptFault};
ghost use Rattle.edit_script.specs.Ranges.{IsCostBound};
ghost use Rattle.oemm_blobs.specs.Content.{Content};
ghost use Rattle.stored_mesh.specs.Stored.{Base, mesh_of};
ghost use Rattle.oemm_shelf.specs.Shelves.{IsOver};
ghost use Rattle.oemm_make.specs.Fits.{FitsEdit, FitsScript};
ghost use Rattle.oemm_make.specs.Held.{homes, tile_script};
ghost use Rattle.oemm_make.specs.Sample.{faces, faces_at, points, random, vertex};
ghost use Rattle.oemm_make.specs.Text.{script_text};
ghost use Rattle.oemm_make.specs.Tiles.{tiles};

use edit_script::ScriptFault;
use mesh_data::{Edit, Task};
use oemm_limits::MOST_SCRIPT_BYTES;

/// The text of a script is read as its tasks, where it keeps the limits: each number is in its range, the tasks are
/// numbered by their lanes, and the text has no more bytes than it may. So a reader that is given this text answers
/// these tasks, unless its source fails or memory is wanting.
pub fn script_text_laws()
    ensures read { (tasks : List Task) → FitsScript tasks → length (script_text tasks) ≤ MOST_SCRIPT_BYTES →
        script_of (script_text tasks) ≡ Ok tasks }
    ensures answered { (tasks : List Task) (answer : Result Script ScriptFault) → FitsScript tasks →
        length (script_text tasks) ≤ MOST_SCRIPT_BYTES → GivesScript answer (script_of (script_text tasks)) →
        MatchResult answer (λ script. script.tasks ≡ tasks)
        (λ fault. (fault ≡ ScriptFault.Read) ⊎ (fault ≡ ScriptFault.Memory)) }
{}

/// A sample has N * N vertices and 2 * (N - 1)^2 faces. Each vertex has the next number of the generator, and the faces
/// stand square by square, row by row.
pub fn sample_laws()
    ensures vertices { (side seed : ℕ) → length (points side seed) ≡ side * side }
    ensures vertex { (side seed place : ℕ) → place < side * side →
        slice_get (points side seed) place ≡ Some (vertex side place (random seed (place + 1))) }
    ensures faces { (side : ℕ) → length (faces side) ≡ 2 * (side - 1) * (side - 1) }
    ensures face { (side row column which : ℕ) → row < side - 1 → column < side - 1 → which < 2 →
        slice_get (faces side) (2 * (row * (side - 1) + column) + which)
        ≡ slice_get (faces_at side (row * side + column)) which }
{}

/// The tasks of leaves of an octree make a script that fits. Where they simplify, its text has few bytes, and is
/// read back as these tasks.
pub fn tile_laws()
    ensures fits { (cells : List Cell) (leaves : List ℕ) (edit : Edit) → AreTiles cells → IsStrictlyIncreasing leaves →
        AreBelow (length cells) leaves → FitsEdit edit → FitsScript (tiles cells leaves edit) }
    ensures short { (cells : List Cell) (leaves : List ℕ) (max : ℤ) (target : ℕ) → AreTiles cells →
        IsStrictlyIncreasing leaves → AreBelow (length cells) leaves → IsCostBound max → target ≤ 2 ^ 24 →
        length (script_text (tiles cells leaves (Simplify max target))) ≤ MOST_SCRIPT_BYTES }
    ensures read { (cells : List Cell) (leaves : List ℕ) (max : ℤ) (target : ℕ) → AreTiles cells →
        IsStrictlyIncreasing leaves → AreBelow (length cells) leaves → IsCostBound max → target ≤ 2 ^ 24 →
        script_of (script_text (tiles cells leaves (Simplify max target)))
        ≡ Ok (tiles cells leaves (Simplify max target)) }
{}

/// Over a sound store, with its index and with each version by its journal, the tile script has a task for each leaf
/// that is the home of a vertex of the stored mesh, and for no other.
pub fn store_tile_laws()
    ensures { (b : Base) (journal : List Entry) (m : Content) (versions : List ℕ) (max : ℤ) (target : ℕ) →
        IsOver b.index versions m b journal →
        tile_script b.index versions m max target
        ≡ Ok (record { tasks = tiles b.index.cells (homes b.index.cells (mesh_of b journal)) (Simplify max target) }) }
{}
