//! Which items of a queue are live after each call.

ghost use Rattle.std.specs.Prelude.{◌≡◌, ◌≢◌, ◌<◌, ◌≤◌, ℕ, true, Some, ◌⊎◌, ◌↔◌};
ghost use Rattle.collapse_queue.specs.declared.candidate.Candidate.{Candidate};
ghost use Rattle.collapse_queue.specs.Candidates.{is_live, stamp_in};
ghost use Rattle.collapse_queue.specs.Queues.{Queued, IsLive, IsIn, pushed, popped, restamped, least_live};

/// After a push the items that were live are, and the new one where its stamp isn't below the present one of its first
/// name. After a pop the items that were live are, but the one that came out. After a stamp those of the name are live
/// that have this stamp or a later one, and those of the other names that were.
#[tactic(auto, using(crate::proofs::Members::live_pushed, crate::proofs::Members::live_popped, crate::proofs::Members::popped_live, crate::proofs::Members::live_restamped))]
pub fn queue_laws()
    ensures push { (q : Queued) (c d : Candidate)
        → IsLive (pushed c q) d ↔ ((d ≡ c) × (is_live q.stamps c ≡ true)) ⊎ IsLive q d }
    ensures pop { (q : Queued) (c d : Candidate)
        → least_live q ≡ Some c → IsLive q d → (d ≡ c) ⊎ IsLive (popped q) d }
    ensures popped { (q : Queued) (d : Candidate) → IsLive (popped q) d → IsLive q d }
    ensures restamp { (q : Queued) (u stamp : ℕ) (d : Candidate)
        → IsLive (restamped u stamp q) d
        ↔ IsIn d q.items × ((d.u ≡ u → stamp ≤ d.stamp) × (d.u ≢ u → is_live q.stamps d ≡ true)) }
{}
