//! What follows from the definition of a mesh's file.

ghost use Rattle.std.specs.Prelude.{◌≡◌, ℕ, List, ◌++◌, length, Some, slice_get};
ghost use Rattle.std.specs.List.{All, flat_map};
ghost use Rattle.std.specs.List.Sorted.{IsStrictlyIncreasing};
ghost use Rattle.oemm_octree.specs.declared.points.Point.{Point};
ghost use Rattle.mesh_data.specs.declared.geometry.Tri.{Tri};
ghost use Rattle.mesh_data.specs.Manifold.{IsTriangleOf};
ghost use Rattle.mesh_data.specs.Mesh.{Mesh, points_of};
ghost use Rattle.mesh_data.specs.Triangles.{IsBelow};
ghost use Rattle.mesh_out.specs.declared.form.Form.TheVariants.{Off, Ply};
ghost use Rattle.mesh_out.specs.Form.{form_vertex, form_face, form_text};
ghost use Rattle.mesh_out.specs.MeshBytes.{position_of, faces_of};
ghost use Rattle.mesh_out.specs.Off.{off_head, point_line, face_line};

/// That the file in OFF is its head and then a line for each point and for each face, and that in PLY
/// each vertex has six bytes and each face thirteen.
pub fn form_laws()
    ensures off { (points : List Point) (faces : List Tri) → form_text Off points faces
        ≡ off_head (length points) (length faces) ++ (flat_map point_line points ++ flat_map face_line faces) }
    ensures vertex { (p : Point) → length (form_vertex Ply p) ≡ 6 }
    ensures face { (t : Tri) → length (form_face Ply t) ≡ 13 }
{}

/// That a name's position is its place, where the names ascend and each comes once, and that the faces
/// of a mesh's file have indices below the number of its points, where the names of its triangles are
/// vertices.
pub fn position_laws()
    ensures place { (names : List ℕ) (v k : ℕ) → IsStrictlyIncreasing names → slice_get names k ≡ Some v →
        position_of names v ≡ k }
    ensures faces { (m : Mesh) → All (IsTriangleOf m.vertices) m.tris →
        All (IsBelow (length (points_of m))) (faces_of m) }
{}
