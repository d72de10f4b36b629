//! What is said of all meshes.

ghost use Rattle.std.specs.Prelude.{◌≡◌, ◌≢◌, ℕ, ◌+◌, ◌^◌, ◌<◌, ◌≤◌, ◌⊎◌, ℤ, pos, List, [], ◌∷◌, ◌++◌, length, slice_get, true, false, None, Ok, Err};
ghost use Rattle.oemm_octree.specs.Octree.{on_grid, IsOnGrid};
ghost use Rattle.mesh_items.specs.Reading.{fault_alone};
ghost use Rattle.mesh_data.specs.Triangles.{IsProper, IsBelow};
ghost use Rattle.oemm_lines.specs.Stream.{texts_of};
ghost use Rattle.off_reader.specs.Grammar.{off_reading, counts_of, vertex_of, face_of, is_head};
ghost use Rattle.off_reader.specs.LineWords.{NumberStandsAt, NoNumberStandsAt, CoordinateStandsAt, NoCoordinateStandsAt, GridStandsBefore, NoIndexStandsAt, IndicesStandBefore, IndicesStandOn, IsNoVertex};
ghost use Rattle.off_reader.specs.Writes.{mesh_lines, mesh_end, stopped_reading, IsHead, CountsStandAt, WriteCounts, WriteVertices, WriteFaces, WriteMesh};
ghost use Rattle.mesh_items.specs.Progress.{reading_of};

use mesh_data::Tri;
use mesh_items::{MeshFault, MeshWhy};
use oemm_limits::{MOST_ITEMS, What};
use oemm_lines::Line;
use oemm_octree::Point;

/// The mesh that lines with words write is what is read of them, whatever stands behind its last face. Where no fault
/// is read, lines with words write a mesh.
pub fn mesh_laws()
    ensures read { (bytes : List ℕ) (points : List Point) (faces : List Tri) →
        WriteMesh (mesh_lines bytes) points faces → off_reading bytes ≡ reading_of points faces }
    ensures written { (bytes : List ℕ) → (off_reading bytes).fault ≡ None →
        (points : List Point) × (faces : List Tri) × WriteMesh (mesh_lines bytes) points faces }
{}

/// The fault of a mesh. Its lines with words are to be one that begins with OFF, the counts behind OFF or on a line of
/// their own, the vertices and the faces. The fault is that of the first line that isn't as it is to be, or, where a
/// line is wanted and none is left, that of the end.
pub fn mesh_fault_laws()
    ensures head { (bytes : List ℕ) (rest : List Line) (l : Line) → mesh_lines bytes ≡ l ∷ rest →
        is_head (slice_get (texts_of l) 0) ≡ false →
        off_reading bytes ≡ fault_alone (MeshFault.Text l.at MeshWhy.Head) }
    ensures counts { (bytes : List ℕ) (head rest : List Line) (l : Line) (place : ℕ) (fault : MeshFault) →
        mesh_lines bytes ≡ head ++ rest →
        CountsStandAt head l place → counts_of place l ≡ Err fault → off_reading bytes ≡ fault_alone fault }
    ensures vertex { (bytes : List ℕ) (head vertex_lines rest : List Line) (l : Line) (v f : ℕ) (points : List Point)
        (fault : MeshFault) →
        mesh_lines bytes ≡ head ++ (vertex_lines ++ l ∷ rest) → WriteCounts head (v, f) →
        WriteVertices 0 vertex_lines points →
        length points < v → vertex_of (length points) l ≡ Err fault →
        off_reading bytes ≡ stopped_reading v f points [] fault }
    ensures face { (bytes : List ℕ) (head vertex_lines face_lines rest : List Line) (l : Line) (f : ℕ)
        (points : List Point) (faces : List Tri) (fault : MeshFault) →
        mesh_lines bytes ≡ head ++ (vertex_lines ++ (face_lines ++ l ∷ rest)) → WriteCounts head (length points, f) →
        WriteVertices 0 vertex_lines points → WriteFaces (length points) 0 face_lines faces → length faces < f →
        face_of (length points) (length faces) l ≡ Err fault →
        off_reading bytes ≡ stopped_reading (length points) f points faces fault }
    ensures nothing { (bytes : List ℕ) → mesh_lines bytes ≡ [] → off_reading bytes ≡ fault_alone (mesh_end bytes) }
    ensures no_counts { (bytes : List ℕ) (head : Line) → mesh_lines bytes ≡ head ∷ [] → IsHead head →
        length head.words ≡ 1 →
        off_reading bytes ≡ fault_alone (mesh_end bytes) }
    ensures no_vertex { (bytes : List ℕ) (head vertex_lines : List Line) (v f : ℕ) (points : List Point) →
        mesh_lines bytes ≡ head ++ vertex_lines → WriteCounts head (v, f) → WriteVertices 0 vertex_lines points →
        length points < v → off_reading bytes ≡ stopped_reading v f points [] (mesh_end bytes) }
    ensures no_face { (bytes : List ℕ) (head vertex_lines face_lines : List Line) (f : ℕ) (points : List Point)
        (faces : List Tri) →
        mesh_lines bytes ≡ head ++ (vertex_lines ++ face_lines) → WriteCounts head (length points, f) →
        WriteVertices 0 vertex_lines points → WriteFaces (length points) 0 face_lines faces → length faces < f →
        off_reading bytes ≡ stopped_reading (length points) f points faces (mesh_end bytes) }
{}

/// What the counts are that are looked for from a place of a line on, and why they are refused. The number of vertices
/// is looked at first, then that of faces; each is to be there, in digits and within its limits.
pub fn counts_laws()
    ensures counts { (l : Line) (place v f : ℕ) → NumberStandsAt l place v → v ≤ MOST_ITEMS →
        NumberStandsAt l (place + 1) f → f ≤ MOST_ITEMS → counts_of place l ≡ Ok (v, f) }
    ensures no_vertices { (l : Line) (place : ℕ) → length l.words ≤ place →
        counts_of place l ≡ Err (MeshFault.Text l.at MeshWhy.Words) }
    ensures no_number { (l : Line) (place : ℕ) → NoNumberStandsAt l place →
        counts_of place l ≡ Err (MeshFault.Text l.at MeshWhy.Number) }
    ensures long_number { (l : Line) (place v : ℕ) → NumberStandsAt l place v → 2 ^ 64 ≤ v →
        counts_of place l ≡ Err (MeshFault.Text l.at MeshWhy.Number) }
    ensures many_vertices { (l : Line) (place v : ℕ) → NumberStandsAt l place v → MOST_ITEMS < v → v < 2 ^ 64 →
        counts_of place l ≡ Err (MeshFault.TooMany What.Vertices v) }
    ensures no_faces { (l : Line) (place v : ℕ) → NumberStandsAt l place v → v ≤ MOST_ITEMS →
        length l.words ≡ place + 1 →
        counts_of place l ≡ Err (MeshFault.Text l.at MeshWhy.Words) }
    ensures no_second_number { (l : Line) (place v : ℕ) → NumberStandsAt l place v → v ≤ MOST_ITEMS →
        NoNumberStandsAt l (place + 1) → counts_of place l ≡ Err (MeshFault.Text l.at MeshWhy.Number) }
    ensures long_second_number { (l : Line) (place v f : ℕ) → NumberStandsAt l place v → v ≤ MOST_ITEMS →
        NumberStandsAt l (place + 1) f → 2 ^ 64 ≤ f → counts_of place l ≡ Err (MeshFault.Text l.at MeshWhy.Number) }
    ensures many_faces { (l : Line) (place v f : ℕ) → NumberStandsAt l place v → v ≤ MOST_ITEMS →
        NumberStandsAt l (place + 1) f → MOST_ITEMS < f → f < 2 ^ 64 →
        counts_of place l ≡ Err (MeshFault.TooMany What.Faces f) }
{}

/// What the point of a vertex's line is, and why the line is refused: three words are looked at one by one, and each is
/// to be there, a whole number and on the grid.
pub fn vertex_laws()
    ensures point { (l : Line) (vertex : ℕ) (p : Point) → CoordinateStandsAt l 0 p.x → CoordinateStandsAt l 1 p.y →
        CoordinateStandsAt l 2 p.z → IsOnGrid p → vertex_of vertex l ≡ Ok p }
    ensures few_words { (l : Line) (vertex place : ℕ) → place < 3 → GridStandsBefore l place → length l.words ≤ place →
        vertex_of vertex l ≡ Err (MeshFault.Text l.at MeshWhy.Words) }
    ensures fraction { (l : Line) (vertex place : ℕ) → place < 3 → GridStandsBefore l place →
        NoCoordinateStandsAt l place true → vertex_of vertex l ≡ Err (MeshFault.Text l.at (MeshWhy.NotInteger vertex)) }
    ensures no_number { (l : Line) (vertex place : ℕ) → place < 3 → GridStandsBefore l place →
        NoCoordinateStandsAt l place false → vertex_of vertex l ≡ Err (MeshFault.Text l.at MeshWhy.Number) }
    ensures off_grid { (l : Line) (vertex place : ℕ) (n : ℤ) → place < 3 → GridStandsBefore l place →
        CoordinateStandsAt l place n → on_grid n ≡ false →
        vertex_of vertex l ≡ Err (MeshFault.Text l.at (MeshWhy.OutOfRange vertex)) }
{}

/// What the triangle of a face's line is, and why the line is refused: the word of the count and three words of indices
/// are looked at one by one, then whether each index is a vertex's, and then whether one comes twice.
pub fn face_laws()
    ensures triangle { (l : Line) (vertices face : ℕ) (t : Tri) → IndicesStandOn l (pos t.a) (pos t.b) (pos t.c) →
        IsBelow vertices t → IsProper t → face_of vertices face l ≡ Ok t }
    ensures no_word { (l : Line) (vertices face : ℕ) → length l.words ≡ 0 →
        face_of vertices face l ≡ Err (MeshFault.Text l.at MeshWhy.Words) }
    ensures no_number { (l : Line) (vertices face : ℕ) → NoNumberStandsAt l 0 →
        face_of vertices face l ≡ Err (MeshFault.Text l.at MeshWhy.Number) }
    ensures corners { (l : Line) (vertices face n : ℕ) → NumberStandsAt l 0 n → n ≢ 3 →
        face_of vertices face l ≡ Err (MeshFault.Text l.at (MeshWhy.NotTriangle face)) }
    ensures few_words { (l : Line) (vertices face place : ℕ) → 0 < place → place < 4 → IndicesStandBefore l place →
        length l.words ≤ place → face_of vertices face l ≡ Err (MeshFault.Text l.at MeshWhy.Words) }
    ensures no_index { (l : Line) (vertices face place : ℕ) → 0 < place → place < 4 → IndicesStandBefore l place →
        NoIndexStandsAt l place → face_of vertices face l ≡ Err (MeshFault.Text l.at MeshWhy.Number) }
    ensures no_vertex { (l : Line) (vertices face : ℕ) (i j k : ℤ) → IndicesStandOn l i j k →
        IsNoVertex vertices i ⊎ IsNoVertex vertices j ⊎ IsNoVertex vertices k →
        face_of vertices face l ≡ Err (MeshFault.Text l.at (MeshWhy.BadIndex face)) }
    ensures repeated { (l : Line) (vertices face : ℕ) (t : Tri) → IndicesStandOn l (pos t.a) (pos t.b) (pos t.c) →
        IsBelow vertices t → (t.a ≡ t.b) ⊎ (t.b ≡ t.c) ⊎ (t.c ≡ t.a) →
        face_of vertices face l ≡ Err (MeshFault.Text l.at (MeshWhy.Repeated face)) }
{}
