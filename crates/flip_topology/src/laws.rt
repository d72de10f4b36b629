//! What a flip keeps, and what it makes of rings and of directed edges.

ghost use Rattle.std.specs.Prelude.{◌≡◌, ℕ, Bool, List, Some, length, true};
ghost use Rattle.oemm_octree.specs.declared.points.Point.{Point};
ghost use Rattle.mesh_data.specs.declared.geometry.Tri.{Tri};
ghost use Rattle.mesh_data.specs.Edits.{flip_verdict, flipped, flipped_tris, is_done};
ghost use Rattle.mesh_data.specs.Keeps.{Keeps};
ghost use Rattle.mesh_data.specs.Links.{opposites};
ghost use Rattle.mesh_data.specs.Manifold.{HasRing, IsManifold, IsRinged};
ghost use Rattle.mesh_data.specs.Mesh.{Mesh};
ghost use Rattle.mesh_data.specs.RingChanges.{FlipsRings, IsOriented, MayFlip};
ghost use Rattle.mesh_data.specs.Triangles.{border_edges};

/// A flip that the triangles allow, on a list of triangles that have three different names each and no directed edge
/// twice: the list stays such a list with the same border and as many triangles, and this becomes of the directed edges
/// and of each ring. A name that has a ring keeps one, whatever other names have.
pub fn flip_list_laws()
    ensures oriented { (ts : List Tri) (a b c d : ℕ) → IsOriented ts → MayFlip ts a b c d
        → IsOriented (flipped_tris a b c d ts) }
    ensures border { (ts : List Tri) (a b c d : ℕ) → IsOriented ts → MayFlip ts a b c d
        → border_edges (flipped_tris a b c d ts) ≡ border_edges ts }
    ensures as_many { (ts : List Tri) (a b c d : ℕ) → IsOriented ts → MayFlip ts a b c d
        → length (flipped_tris a b c d ts) ≡ length ts }
    ensures rings { (ts : List Tri) (a b c d : ℕ) → IsOriented ts → MayFlip ts a b c d
        → FlipsRings ts (flipped_tris a b c d ts) a b c d }
    ensures ring { (ts : List Tri) (a b c d w : ℕ) → IsOriented ts → MayFlip ts a b c d → HasRing ts w
        → HasRing (flipped_tris a b c d ts) w }
    ensures ringed { (ts : List Tri) (a b c d : ℕ) → IsOriented ts → MayFlip ts a b c d → IsRinged ts
        → IsRinged (flipped_tris a b c d ts) }
    ensures met { (ts : List Tri) (a b c d : ℕ) → IsOriented ts → MayFlip ts a b c d → IsRinged ts
        → HasRing ts a × HasRing ts b × HasRing ts c × HasRing ts d }
{}

/// A flip that is done is one that the triangles allow. On a manifold it keeps the manifold, its Euler characteristic
/// and its border, and this becomes of the directed edges and of each ring.
pub fn flip_mesh_laws()
    ensures allowed { (inside : Point → Bool) (m : Mesh) (a b : ℕ) → is_done (flip_verdict inside m a b) ≡ true
        → (c : ℕ) × (d : ℕ) × MayFlip m.tris a b c d }
    ensures keeps { (inside : Point → Bool) (m : Mesh) (a b : ℕ) → IsManifold m
        → is_done (flip_verdict inside m a b) ≡ true → Keeps m (flipped m a b) }
    ensures rings { (inside : Point → Bool) (m : Mesh) (a b c d : ℕ) → IsManifold m
        → is_done (flip_verdict inside m a b) ≡ true → opposites m.tris a b ≡ Some (c, d)
        → FlipsRings m.tris (flipped m a b).tris a b c d }
{}
