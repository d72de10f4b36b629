//! What follows from the definitions of verdicts, edits and work.

ghost use Rattle.std.specs.Prelude.{◌≡◌, ◌≢◌, ◌↔◌, ℕ, ℤ, List, Contains, Bool, true, false};
ghost use Rattle.std.specs.List.Sorted.{IsSorted};
ghost use Rattle.mesh_data.specs.declared.edits.Edit.{Edit};
ghost use Rattle.mesh_data.specs.declared.edits.Edit.TheVariants.{Move};
ghost use Rattle.mesh_data.specs.declared.edits.Reply.TheVariants.{Folds, Dear, Done, DoneAt};
ghost use Rattle.oemm_octree.specs.declared.points.Point.{Point};
ghost use Rattle.mesh_data.specs.declared.geometry.Tri.{Tri};
ghost use Rattle.mesh_data.specs.Edits.{after, moved, flipped, collapsed, is_held, is_free, folds_with, cost, move_verdict, collapse_verdict, verdict};
ghost use Rattle.mesh_data.specs.Links.{are_neighbours};
ghost use Rattle.mesh_data.specs.Mesh.{Mesh};
ghost use Rattle.mesh_data.specs.Seen.{seen, seen_worked};
ghost use Rattle.mesh_data.specs.Triangles.{has_corner, tri_cmp};
ghost use Rattle.mesh_data.specs.Work.{work};
ghost use Rattle.edit_laws.specs.Away.{AreTurned, IsAway};
ghost use Rattle.edit_laws.specs.Folding.{IsLeastFolding};
ghost use Rattle.edit_laws.specs.Held.{IsHeld, IsMoved};

/// Locality: what an edit answers depends on what the area sees of the mesh alone. Edits in a row give the same replies
/// on what it sees, and leave what it sees of the mesh that they leave.
#[tactic(auto, using(crate::proofs::SeenWork::verdict_seen, crate::proofs::SeenWork::work_seen))]
pub fn work_laws()
    ensures verdict { (inside : Point → Bool) (m : Mesh) (e : Edit) →
        verdict inside (seen inside m) e ≡ verdict inside m e }
    ensures work { (inside : Point → Bool) (m : Mesh) (edits : List Edit)
        → work inside (seen inside m) edits ≡ seen_worked inside (work inside m edits) }
{}

/// What an area sees of a moved, flipped or collapsed mesh is what the edit makes of what it sees, where it holds the
/// names of the edit, and the new point of a move.
#[tactic(auto, using(crate::proofs::SeenEffects::seen_moved, crate::proofs::SeenEffects::seen_flipped, crate::proofs::SeenEffects::seen_collapsed))]
pub fn effect_laws()
    ensures moves { (inside : Point → Bool) (m : Mesh) (v : ℕ) (to : Point) → is_held inside m v ≡ true →
        inside to ≡ true
        → seen inside (moved m v to) ≡ moved (seen inside m) v to }
    ensures flips { (inside : Point → Bool) (m : Mesh) (a b : ℕ) → is_held inside m a ≡ true → is_held inside m b ≡ true
        → seen inside (flipped m a b) ≡ flipped (seen inside m) a b }
    ensures collapses { (inside : Point → Bool) (m : Mesh) (u v : ℕ) → u ≢ v → is_held inside m u ≡ true → is_held inside m v ≡ true
        → seen inside (collapsed m u v) ≡ collapsed (seen inside m) u v }
{}

/// Which pairs a collapse of u onto its neighbour v can change. The verdict of a collapse changes only where one of its
/// two names is u or a neighbour of u, and a cost only where one of them is u or v. The triangles are turned and in
/// order, as those of each start mesh and each edited one are.
#[tactic(auto, using(crate::proofs::FarPairs::far_pairs, crate::proofs::FarPairs::far_costs))]
pub fn pair_laws()
    ensures verdicts { (inside : Point → Bool) (m : Mesh) (u v x y : ℕ) (most : ℤ) → AreTurned m.tris →
        IsSorted tri_cmp m.tris
        → are_neighbours m.tris u v ≡ true → IsAway m u x → IsAway m u y
        → collapse_verdict inside (collapsed m u v) x y most ≡ collapse_verdict inside m x y most }
    ensures costs { (m : Mesh) (u v x y : ℕ) → x ≢ u → x ≢ v → y ≢ u → y ≢ v → cost (collapsed m u v) x y ≡ cost m x y }
{}

/// A vertex is held where the mesh has it at a point of the area. It is free exactly where it is held, and with it each
/// vertex of each triangle that has it.
#[tactic(auto, using(crate::proofs::Held::held_is, crate::proofs::Held::free_is))]
pub fn free_laws()
    ensures held { (inside : Point → Bool) (m : Mesh) (v : ℕ) → (is_held inside m v ≡ true) ↔ IsHeld inside m v }
    ensures free { (inside : Point → Bool) (m : Mesh) (v : ℕ) → (is_free inside m v ≡ true)
        ↔ (IsHeld inside m v × ((t : Tri) (w : ℕ) → Contains m.tris t → has_corner v t ≡ true → has_corner w t ≡ true
        → IsHeld inside m w)) }
{}

/// A move that is done changes the point of its vertex alone: the other points, all planes and the triangles stay.
#[tactic(auto, using(crate::proofs::Held::moved_is))]
pub fn move_laws()
    ensures { (inside : Point → Bool) (m : Mesh) (v : ℕ) (to : Point) → move_verdict inside m v to ≡ Done
        → IsMoved m (after m (Move v to) Done) v to }
{}

/// The triangle that a collapse is refused for is the least that would turn over, where the triangles are in order, as
/// those of each start mesh and each edited one are. Where the collapse is done, or too dear, none would.
pub fn fold_laws()
    ensures named { (inside : Point → Bool) (m : Mesh) (u v : ℕ) (most : ℤ) (t : Tri) → IsSorted tri_cmp m.tris
        → collapse_verdict inside m u v most ≡ Folds t → IsLeastFolding m u v t }
    ensures done { (inside : Point → Bool) (m : Mesh) (u v : ℕ) (most cost_of : ℤ) (t : Tri)
        → collapse_verdict inside m u v most ≡ DoneAt cost_of → Contains m.tris t → folds_with m u v t ≡ false }
    ensures dear { (inside : Point → Bool) (m : Mesh) (u v : ℕ) (most cost_of : ℤ) (t : Tri)
        → collapse_verdict inside m u v most ≡ Dear cost_of → Contains m.tris t → folds_with m u v t ≡ false }
{}
