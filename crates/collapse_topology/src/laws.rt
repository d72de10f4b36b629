//! What a collapse keeps, and what it makes of rings and of directed edges.

ghost use Rattle.std.specs.Prelude.{◌≡◌, ◌≢◌, ◌+◌, ℕ, ℤ, Bool, List, length, true};
ghost use Rattle.oemm_octree.specs.declared.points.Point.{Point};
ghost use Rattle.mesh_data.specs.declared.geometry.Tri.{Tri};
ghost use Rattle.mesh_data.specs.Edits.{collapse_verdict, collapsed, collapsed_tris, is_done};
ghost use Rattle.mesh_data.specs.Keeps.{Keeps};
ghost use Rattle.mesh_data.specs.Manifold.{HasRing, IsManifold, IsRinged};
ghost use Rattle.mesh_data.specs.Mesh.{Mesh};
ghost use Rattle.mesh_data.specs.RingChanges.{CollapsesRings, IsOriented, MayCollapse};
ghost use Rattle.mesh_data.specs.Triangles.{border_edges};

/// A collapse of u onto v that the triangles allow, on a list of triangles that have three different names each and no
/// directed edge twice: the list stays such a list with the same border, two triangles go, and this becomes of the
/// directed edges and of each ring. Where v has a ring, each name but u that has one keeps one, whatever others have.
pub fn collapse_list_laws()
    ensures oriented { (ts : List Tri) (u v : ℕ) → IsOriented ts → MayCollapse ts u v
        → IsOriented (collapsed_tris u v ts) }
    ensures border { (ts : List Tri) (u v : ℕ) → IsOriented ts → MayCollapse ts u v
        → border_edges (collapsed_tris u v ts) ≡ border_edges ts }
    ensures fewer { (ts : List Tri) (u v : ℕ) → IsOriented ts → MayCollapse ts u v
        → length (collapsed_tris u v ts) + 2 ≡ length ts }
    ensures rings { (ts : List Tri) (u v : ℕ) → IsOriented ts → MayCollapse ts u v
        → CollapsesRings ts (collapsed_tris u v ts) u v }
    ensures ring { (ts : List Tri) (u v w : ℕ) → IsOriented ts → MayCollapse ts u v → HasRing ts v → w ≢ u
        → HasRing ts w → HasRing (collapsed_tris u v ts) w }
    ensures ringed { (ts : List Tri) (u v : ℕ) → IsOriented ts → MayCollapse ts u v → IsRinged ts
        → IsRinged (collapsed_tris u v ts) }
    ensures met { (ts us : List Tri) (u v : ℕ) (changes : CollapsesRings ts us u v) → IsRinged ts
        → HasRing ts v × HasRing ts changes.r × HasRing ts changes.s }
{}

/// A collapse that is done is one that the triangles allow. On a manifold it keeps the manifold, its Euler
/// characteristic and its border, and this becomes of the directed edges and of each ring.
pub fn collapse_mesh_laws()
    ensures allowed { (inside : Point → Bool) (m : Mesh) (u v : ℕ) (most : ℤ)
        → is_done (collapse_verdict inside m u v most) ≡ true → MayCollapse m.tris u v }
    ensures keeps { (inside : Point → Bool) (m : Mesh) (u v : ℕ) (most : ℤ) → IsManifold m
        → is_done (collapse_verdict inside m u v most) ≡ true → Keeps m (collapsed m u v) }
    ensures rings { (inside : Point → Bool) (m : Mesh) (u v : ℕ) (most : ℤ) → IsManifold m
        → is_done (collapse_verdict inside m u v most) ≡ true → CollapsesRings m.tris (collapsed m u v).tris u v }
{}
