//! A file that is written is read as itself.

ghost use Rattle.std.specs.Prelude.{◌≡◌, List, Ok};
ghost use Rattle.oemm_octree.specs.declared.points.Point.{Point};
ghost use Rattle.mesh_data.specs.declared.geometry.Tri.{Tri};
ghost use Rattle.mesh_data.specs.Mesh.{Mesh, points_of};
ghost use Rattle.mesh_items.specs.Reading.{soup};
ghost use Rattle.mesh_out.specs.declared.form.Form.TheVariants.{Off, Ply};
ghost use Rattle.mesh_out.specs.Form.{form_text};
ghost use Rattle.mesh_out.specs.MeshBytes.{faces_of, mesh_bytes};
ghost use Rattle.off_reader.specs.Grammar.{off_reading};
ghost use Rattle.ply_reader.specs.Mesh.{ply_reading};
ghost use Rattle.mesh_round_trip.specs.Whole.{IsWritable, IsWritableMesh};
ghost use Rattle.mesh_items.specs.Progress.{reading_of};

/// A mesh that is written as OFF is read as itself: the counts, then each point, then each face, and no fault; so its
/// points and faces are those that were written.
pub fn off_round_trip()
    ensures reading { (points : List Point) (faces : List Tri) → IsWritable points faces →
        off_reading (form_text Off points faces) ≡ reading_of points faces }
    ensures soup { (points : List Point) (faces : List Tri) → IsWritable points faces →
        soup (off_reading (form_text Off points faces)) ≡ Ok (record { points = points; faces = faces }) }
{}

/// The same in binary PLY.
pub fn ply_round_trip()
    ensures reading { (points : List Point) (faces : List Tri) → IsWritable points faces →
        ply_reading (form_text Ply points faces) ≡ reading_of points faces }
    ensures soup { (points : List Point) (faces : List Tri) → IsWritable points faces →
        soup (ply_reading (form_text Ply points faces)) ≡ Ok (record { points = points; faces = faces }) }
{}

/// The points and faces of a mesh are those that its file says, where the file can hold the mesh.
pub fn mesh_file_laws()
    ensures off { (m : Mesh) → IsWritableMesh m →
        soup (off_reading (mesh_bytes Off m)) ≡ Ok (record { points = points_of m; faces = faces_of m }) }
    ensures ply { (m : Mesh) → IsWritableMesh m →
        soup (ply_reading (mesh_bytes Ply m)) ≡ Ok (record { points = points_of m; faces = faces_of m }) }
{}
