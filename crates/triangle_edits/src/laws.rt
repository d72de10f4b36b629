//! What follows from the definitions of rings of three names and of shared neighbours.

ghost use Rattle.std.specs.Prelude.{◌≡◌, ◌≤◌, ℕ, List, length, Some, None, true};
ghost use Rattle.mesh_data.specs.declared.geometry.Tri.{Tri};
ghost use Rattle.mesh_data.specs.declared.rings.Ring.{Ring};
ghost use Rattle.mesh_data.specs.Links.{is_closed_by_three, link_violation};
ghost use Rattle.mesh_data.specs.Rings.{IsRing};
ghost use Rattle.triangle_edits.specs.Links.{IsSharedBeside};

/// That the test for a closed ring of three names, a walk along the link, answers true exactly where there is one.
pub fn closed_by_three_laws()
    ensures found { (ts : List Tri) (v : ℕ) → is_closed_by_three ts v ≡ true
        → (r : Ring) × (r.closed ≡ true) × (length r.names ≡ 3) × IsRing ts v r }
    ensures finds { (ts : List Tri) (v : ℕ) (r : Ring) → r.closed ≡ true → length r.names ≡ 3 → IsRing ts v r
        → is_closed_by_three ts v ≡ true }
{}

/// That the least shared name of u and v is a neighbour of both that doesn't lie opposite of their edge, that no such
/// name is less, and that there is none of them where it is none.
pub fn link_condition_laws()
    ensures shared { (ts : List Tri) (u v w : ℕ) → link_violation ts u v ≡ Some w → IsSharedBeside ts u v w }
    ensures least { (ts : List Tri) (u v w x : ℕ) → link_violation ts u v ≡ Some w → IsSharedBeside ts u v x → w ≤ x }
    ensures none { (ts : List Tri) (u v x : ℕ) → link_violation ts u v ≡ None → IsSharedBeside ts u v x → ⊥ }
{}
