//! Work on a core, by what the core sees.

ghost use Rattle.std.specs.Prelude.{◌≡◌, ℕ, List, length};
ghost use Rattle.oemm_octree.specs.declared.cells.Cell.{Cell};
ghost use Rattle.oemm_octree.specs.Leaves.{AreBelow, AreTiles};
ghost use Rattle.oemm_octree.specs.Octree.{area_of, is_inside};
ghost use Rattle.mesh_data.specs.declared.edits.Edit.{Edit};
ghost use Rattle.mesh_data.specs.Mesh.{Mesh};
ghost use Rattle.mesh_data.specs.Work.{work};
ghost use Rattle.mesh_sheets.specs.Clean.{IsClean};
ghost use Rattle.mesh_sheets.specs.Sheets.{patch};

/// A mesh enters the replies of edits on a core, and the patch that they leave, only through the core's patch: two
/// clean meshes with one patch give the same replies, and the same patch after them.
pub fn work_laws()
    ensures replies { (cells : List Cell) (core : List ℕ) (m n : Mesh) (edits : List Edit) → AreTiles cells
        → AreBelow (length cells) core → IsClean m → IsClean n → patch cells m core ≡ patch cells n core
        → (work (is_inside (area_of cells core)) m edits).replies
        ≡ (work (is_inside (area_of cells core)) n edits).replies }
    ensures patches { (cells : List Cell) (core : List ℕ) (m n : Mesh) (edits : List Edit) → AreTiles cells
        → AreBelow (length cells) core → IsClean m → IsClean n → patch cells m core ≡ patch cells n core
        → patch cells (work (is_inside (area_of cells core)) m edits).mesh core
        ≡ patch cells (work (is_inside (area_of cells core)) n edits).mesh core }
{}
