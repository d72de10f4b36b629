//! What follows from the definitions of the file of a mesh over an octree, and of what is exported of a store.

ghost use Rattle.std.specs.Prelude.{◌≡◌, ℕ, List, [], ◌∷◌, map, length, Some, Ok, Result, slice_get, Contains};
ghost use Rattle.std.specs.List.{All};
ghost use Rattle.std.specs.FinMap as finite;
ghost use Rattle.fault_counts.specs.Told.{Told};
ghost use Rattle.oemm_octree.specs.declared.cells.Cell.{Cell};
ghost use Rattle.mesh_data.specs.declared.edits.Entry.{Entry};
ghost use Rattle.mesh_data.specs.Mesh.{Mesh};
ghost use Rattle.mesh_data.specs.Triangles.{IsBelow};
ghost use Rattle.mesh_out.specs.declared.form.Form.{Form};
ghost use Rattle.mesh_out.specs.MeshBytes.{IsNamedBy, mesh_bytes};
ghost use Rattle.mesh_sheets.specs.Clean.{AreHomed, IsClean};
ghost use Rattle.mesh_sheets.specs.Export.{all_leaves, tris_by_keeper, vertices_by_home};
ghost use Rattle.mesh_sheets.specs.Sheets.{sheet};
ghost use Rattle.sheet_data.specs.declared.sheets.LeafSheet.{LeafSheet};
ghost use Rattle.oemm_blobs.specs.Content.{Content};
ghost use Rattle.stored_mesh.specs.Stored.{Base, mesh_of};
ghost use Rattle.oemm_shelf.specs.Shelves.{IsOver};
ghost use Rattle.leaf_export.specs.Exported.{Exports, ExportsBytes, stored_parts};
ghost use Rattle.leaf_export.specs.Files.{Parts, mesh_parts, parts_in};
ghost use Rattle.leaf_export.specs.OctreeBytes.{vertex_names, octree_bytes, place_in, sheets_bytes};

use crate::fault::ExportFault;

/// That over one leaf the file of a mesh is the one with the vertices in the order of their names; and that over any
/// leaves it is the file of the sheets of all of them.
pub fn file_laws()
    ensures one { (form : Form) (cell : Cell) (m : Mesh) → IsClean m → AreHomed (cell ∷ []) m
        → octree_bytes form (cell ∷ []) m ≡ mesh_bytes form m }
    ensures sheets { (form : Form) (cells : List Cell) (m : Mesh)
        → sheets_bytes form (map (sheet cells m) (all_leaves cells)) ≡ octree_bytes form cells m }
{}

/// That at the place of a name that name stands; that no index is out of range in what is written of sheets; and that each
/// name of a face of a clean mesh, each of whose vertices has a home, is a vertex of its file.
pub fn place_laws()
    ensures place { (names : List ℕ) (v : ℕ) → Contains names v → slice_get names (place_in names v) ≡ Some v }
    ensures within { (sheets : List LeafSheet) (parts : Parts) → parts_in sheets ≡ Ok parts
        → All (IsBelow (length parts.0)) parts.1 }
    ensures named { (cells : List Cell) (m : Mesh) → IsClean m → AreHomed cells m
        → All (IsNamedBy (vertex_names (vertices_by_home cells m))) (tris_by_keeper cells m) }
{}

/// Over a sound store, with its index and with each version by its journal, the points and the faces that are written are
/// those of the stored mesh over its octree. So what an export puts there is exactly the file of that mesh, or a prefix of
/// it where the sink failed; and it is refused only where the sink or the store failed, or for want of memory.
pub fn sound_laws()
    ensures parts { (b : Base) (journal : List Entry) (m : Content) (versions : List ℕ)
        → IsOver b.index versions m b journal
        → stored_parts b.index versions m ≡ Ok (mesh_parts b.index.cells (mesh_of b journal)) }
    ensures export { (b : Base) (journal : List Entry) (m : Content) (versions : List ℕ) (form : Form) (old new : Told)
        (done : Result (Unit {0}) ExportFault) → IsOver b.index versions m b journal
        → Exports (Some m) b.index versions form old new done
        → ExportsBytes old new (octree_bytes form b.index.cells (mesh_of b journal)) done }
{}
