//! What follows from the definitions of what a shelf answers.

ghost use Rattle.std.specs.Prelude.{◌≡◌, ◌<◌, ◌↔◌, ℕ, List, length, true, Ok};
ghost use Rattle.std.specs.List.Sorted.{IsStrictlyIncreasing};
ghost use Rattle.oemm_octree.specs.declared.cells.Cell.{Cell};
ghost use Rattle.oemm_octree.specs.Leaves.{AreBelow, AreTiles};
ghost use Rattle.mesh_data.specs.declared.edits.Entry.{Entry};
ghost use Rattle.mesh_data.specs.Mesh.{start};
ghost use Rattle.sheet_data.specs.declared.index.IndexSheet.{IndexSheet};
ghost use Rattle.oemm_blobs.specs.Content.{Content, blob_at};
ghost use Rattle.mesh_sheets.specs.Sheets.{patch, sheet};
ghost use Rattle.stored_mesh.specs.Stored.{Base, IsBuilt, IsChecked, IsSound, mesh_of};
ghost use Rattle.store_spelling.specs.Spelled.{store_spelling};
ghost use Rattle.oemm_shelf.specs.Opened.{found_in, tile_cube};
ghost use Rattle.oemm_shelf.specs.Readings.{current_patch, current_sheet, sheet_at};
ghost use Rattle.oemm_shelf.specs.Shelves.{AreVersions, IsOver};

/// That a walk along cells tells whether they tile the cube.
pub fn index_laws()
    ensures { (cells : List Cell) → (tile_cube cells ≡ true) ↔ AreTiles cells }
{}

/// Over a checked store an opening finds its index and its journal. So what is opened over a sound store is over it: it
/// has its index, and each version by its journal.
pub fn open_laws()
    ensures finds { (b : Base) (journal : List Entry) (m : Content) → IsChecked store_spelling (blob_at m) b journal
        → found_in m ≡ Ok (b.index, journal) }
    ensures over { (b : Base) (journal entries : List Entry) (m : Content) (i : IndexSheet) (versions : List ℕ)
        → IsSound store_spelling (blob_at m) b journal → found_in m ≡ Ok (i, entries) → AreVersions i entries versions
        → IsOver i versions m b journal }
{}

/// Over a sound store, with its index and with each version by its journal, the present sheet of each leaf is that of
/// the stored mesh, and the present patch of each core is that of the stored mesh. The first sheet of each leaf is that
/// of the mesh from which the store was built. So no leaf is damaged or absent there, and no sheets clash.
pub fn sound_laws()
    ensures sheet { (b : Base) (journal : List Entry) (m : Content) (versions : List ℕ) (leaf : ℕ)
        → IsOver b.index versions m b journal → leaf < length b.index.cells
        → current_sheet b.index versions m leaf ≡ Ok (sheet b.index.cells (mesh_of b journal) leaf) }
    ensures base { (b : Base) (m : Content) (leaf : ℕ) → IsBuilt store_spelling (blob_at m) b
        → leaf < length b.index.cells
        → sheet_at b.index m leaf 0 ≡ Ok (sheet b.index.cells (start b.soup) leaf) }
    ensures patch { (b : Base) (journal : List Entry) (m : Content) (versions core : List ℕ)
        → IsOver b.index versions m b journal → AreBelow (length b.index.cells) core → IsStrictlyIncreasing core
        → current_patch b.index versions m core ≡ Ok (patch b.index.cells (mesh_of b journal) core) }
{}
