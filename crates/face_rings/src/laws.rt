//! What the faces of a list tell of its edges, its border and its rings.

ghost use Rattle.std.specs.Prelude.{◌≡◌, ◌≢◌, ◌≤◌, ◌+◌, ◌↔◌, All, Contains, ℕ, List, filter, length, Some, true};
ghost use Rattle.mesh_data.specs.declared.geometry.Edge.{Edge};
ghost use Rattle.mesh_data.specs.declared.geometry.Tri.{Tri};
ghost use Rattle.mesh_data.specs.declared.rings.Ring.{Ring};
ghost use Rattle.mesh_data.specs.Links.{apex, has_both};
ghost use Rattle.mesh_data.specs.Manifold.{is_corner, times};
ghost use Rattle.mesh_data.specs.RingChanges.{HasEdge, IsOriented};
ghost use Rattle.mesh_data.specs.Rings.{IsRing, are_distinct, fewest_names, ring_path};
ghost use Rattle.mesh_data.specs.Triangles.{IsProper, border_edges};
ghost use Rattle.face_rings.specs.Faces.{Face, IsBorder, IsFan, tri, ◌∈◌};

/// A face may be read from each of its names. Corners, directed edges, third names and the border are told by faces.
pub fn face_laws()
    ensures member { (ts : List Tri) (t : Tri) → Contains ts t ↔ (t ∈ ts) }
    ensures turn { (ts : List Tri) (a b c : ℕ) → Face ts a b c → Face ts b c a }
    ensures corner { (ts : List Tri) (v : ℕ) → (is_corner ts v ≡ true) ↔ ((x : ℕ) × (y : ℕ) × Face ts v x y) }
    ensures edge { (ts : List Tri) (a b : ℕ) → HasEdge ts a b ↔ ((c : ℕ) × Face ts a b c) }
    ensures third { (ts : List Tri) (a b c : ℕ) → apex ts a b ≡ Some c → Face ts a b c }
    ensures border { (ts : List Tri) (e : Edge) → Contains (border_edges ts) e ↔ IsBorder ts e.a e.b }
{}

/// Where each triangle has three different names and no directed edge is in two triangles, a face has three different
/// names, and two names in a row have one third name. As many triangles have two names as have the directed edges
/// between them.
pub fn oriented_laws()
    ensures proper { (ts : List Tri) (a b c : ℕ) → IsOriented ts → Face ts a b c → IsProper (tri a b c) }
    ensures alone { (ts : List Tri) (a b c d : ℕ) → IsOriented ts → Face ts a b c → Face ts a b d → c ≡ d }
    ensures both { (ts : List Tri) (a b : ℕ) → a ≢ b → All IsProper ts
        → times ts (record { a = a; b = b }) + times ts (record { a = b; b = a }) ≡ length (filter (has_both a b) ts) }
{}

/// A ring is a path of different names, long enough, whose steps are the faces at its vertex.
pub fn fan_laws()
    ensures path { (ts : List Tri) (v : ℕ) (r : Ring) → IsRing ts v r → IsFan ts v (ring_path r) }
    ensures ring { (ts : List Tri) (v : ℕ) (r : Ring) → are_distinct r.names ≡ true
        → fewest_names r.closed ≤ length r.names → IsFan ts v (ring_path r) → IsRing ts v r }
{}
