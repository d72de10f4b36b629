//! What a turn of a simplification keeps, and what its steps are.

ghost use Rattle.std.specs.Prelude.{◌≡◌, ◌≢◌, ◌+◌, true, filter, length, ℕ, ℤ, Bool, List, Some};
ghost use Rattle.oemm_octree.specs.declared.points.Point.{Point};
ghost use Rattle.mesh_data.specs.declared.edits.Reply.TheVariants.{DoneAt};
ghost use Rattle.mesh_data.specs.declared.edits.Step.{Step};
ghost use Rattle.mesh_data.specs.Edits.{AreLeastSteps, collapsed, cost, is_held, is_free, whole_count};
ghost use Rattle.mesh_data.specs.Links.{has_both};
ghost use Rattle.mesh_data.specs.Mesh.{Mesh};
ghost use Rattle.collapse_queue.specs.declared.candidate.Candidate.{Candidate};
ghost use Rattle.collapse_queue.specs.Queues.{Queued, HasNoneLive, IsLeastLive, least_live, popped};
ghost use Rattle.queued_simplify.specs.Errors.{ErrorMesh, collapse_reply, contracted, price, with_plane_errors};
ghost use Rattle.queued_simplify.specs.LeastSteps.{AreLeastStepsBy, HasNoneDone, IsLeastDone};
ghost use Rattle.queued_simplify.specs.Served.{AreEnough, IsRefreshed, IsServed, IsServedBut};
ghost use Rattle.queued_simplify.specs.Turns.{IsInOrder};

/// A turn keeps the queue in step with the mesh: where the least live item is refused, it may go; where its collapse is
/// done, that is the least one that is; where no item is live, no collapse is done. After a collapse it is enough to put
/// the pairs of the names near it in again.
pub fn turn_laws()
    ensures refused { (inside : Point → Bool) (most : ℤ) (w : ErrorMesh) (q : Queued) (c : Candidate)
        → IsServed inside most w q → least_live q ≡ Some c
        → ((cost_of : ℤ) → collapse_reply inside w c.u c.v most ≡ DoneAt cost_of → ⊥)
        → IsServed inside most w (popped q) }
    ensures least { (inside : Point → Bool) (most : ℤ) (w : ErrorMesh) (q : Queued) (c : Candidate) (cost_of : ℤ)
        → IsServed inside most w q → IsLeastLive q c
        → collapse_reply inside w c.u c.v most ≡ DoneAt cost_of
        → IsLeastDone inside w most (record { u = c.u; v = c.v; cost = c.cost }) }
    ensures none { (inside : Point → Bool) (most : ℤ) (w : ErrorMesh) (q : Queued)
        → IsServed inside most w q → HasNoneLive q → HasNoneDone inside w most }
    ensures collapse { (inside : Point → Bool) (most : ℤ) (w : ErrorMesh) (q r : Queued) (u v : ℕ) (cost_of : ℤ)
        (names : List ℕ)
        → IsInOrder w.mesh → collapse_reply inside w u v most ≡ DoneAt cost_of
        → IsServedBut (λ x. x ≡ u) inside most w q → AreEnough inside most w q u v names
        → IsRefreshed inside most (contracted w u v) names q r
        → IsServed inside most (contracted w u v) r }
{}

/// The least steps are unique. On a mesh whose errors are those of its planes they are its least steps by planes.
pub fn step_laws()
    ensures unique { (inside : Point → Bool) (w : ErrorMesh) (most : ℤ) (target : ℕ) (ss ts : List Step)
        → AreLeastStepsBy inside w most target ss → AreLeastStepsBy inside w most target ts → ss ≡ ts }
    ensures planes { (inside : Point → Bool) (m : Mesh) (most : ℤ) (target : ℕ) (ss : List Step)
        → AreLeastStepsBy inside (with_plane_errors m) most target ss → AreLeastSteps inside m most target ss }
{}

/// A collapse takes the triangles with both names away, which are whole, and no other whole one: so as many whole
/// triangles go as triangles, which a mesh that keeps the count may use.
pub fn whole_laws()
    ensures lost { (inside : Point → Bool) (m : Mesh) (u v : ℕ) → u ≢ v → is_held inside m v ≡ true
        → is_free inside m u ≡ true
        → whole_count inside (collapsed m u v) + length (filter (has_both u v) m.tris) ≡ whole_count inside m }
    ensures as_many { (inside : Point → Bool) (m : Mesh) (u v : ℕ) → u ≢ v → is_held inside m v ≡ true
        → is_free inside m u ≡ true
        → whole_count inside (collapsed m u v) + length m.tris
        ≡ whole_count inside m + length (collapsed m u v).tris }
{}
