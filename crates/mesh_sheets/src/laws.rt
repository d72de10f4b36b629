//! What follows from the definitions of sheets and patches.

ghost use Rattle.std.specs.Prelude.{◌≡◌, ◌<◌, ℕ, List, map, length};
ghost use Rattle.std.specs.List.Sorted.{IsSorted, IsStrictlyIncreasing};
ghost use Rattle.std.specs.FinMap as finite;
ghost use Rattle.oemm_lists.specs.Ascending.{in_order};
ghost use Rattle.oemm_octree.specs.declared.cells.Cell.{Cell};
ghost use Rattle.oemm_octree.specs.declared.points.Point.{Point};
ghost use Rattle.oemm_octree.specs.Leaves.{AreBelow, is_one_of};
ghost use Rattle.oemm_octree.specs.Octree.{core_of};
ghost use Rattle.mesh_data.specs.Mesh.{Mesh};
ghost use Rattle.mesh_data.specs.Triangles.{tri_cmp};
ghost use Rattle.mesh_sheets.specs.Assembled.{assembled, by_name, rim_of};
ghost use Rattle.mesh_sheets.specs.Clean.{AreHomed, IsClean};
ghost use Rattle.mesh_sheets.specs.Export.{tris_by_keeper, vertices_by_home};
ghost use Rattle.mesh_sheets.specs.Sheets.{near, patch, sheet, summed};
ghost use Rattle.mesh_sheets.specs.Written.{sheets_of};

/// That a leaf is near to another where this is near to it, whichever of the two keeps a triangle between them; and
/// that the leaves of a box's core ascend.
pub fn leaf_laws()
    ensures near { (cells : List Cell) (m : Mesh) (k l : ℕ) → k < length cells → l < length cells
        → is_one_of (near cells m k) l ≡ is_one_of (near cells m l) k }
    ensures core { (cells : List Cell) (low high : Point) → IsStrictlyIncreasing (core_of cells low high) }
{}

/// That the sheets of a core, and of the leaves outside of it that they name, make its patch; and that its patch makes
/// the sheets of the core. So a shelf reads no other sheet for a patch, and a commit reads none.
pub fn sheet_laws()
    ensures patch { (cells : List Cell) (m : Mesh) (core : List ℕ) → AreBelow (length cells) core
        → IsStrictlyIncreasing core → IsSorted tri_cmp m.tris
        → (let inner = map (sheet cells m) core in
        assembled core inner (map (sheet cells m) (rim_of cells core inner)) ≡ patch cells m core) }
    ensures sheets { (cells : List Cell) (m : Mesh) (core : List ℕ) → AreBelow (length cells) core
        → IsSorted tri_cmp m.tris → sheets_of cells (patch cells m core) ≡ map (sheet cells m) core }
{}

/// That the sheets of all leaves have each vertex and each triangle of the mesh once.
pub fn export_laws()
    ensures vertices { (cells : List Cell) (m : Mesh) → AreHomed cells m
        → by_name (vertices_by_home cells m) ≡ map summed (finite.entries m.vertices) }
    ensures triangles { (cells : List Cell) (m : Mesh) → IsClean m → AreHomed cells m
        → in_order tri_cmp (tris_by_keeper cells m) ≡ m.tris }
{}
