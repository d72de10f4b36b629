//! What follows from what the top call gives.

ghost use Rattle.std.specs.Prelude.{ℕ, List};
ghost use Rattle.oemm_run.specs.declared.end.End.{End};
ghost use Rattle.oemm_run.specs.Gives.{Gives};
ghost use Rattle.oemm_run.specs.Laws.Leaves.{TakesFronts, MindsScript, LeavesSinks};
ghost use Rattle.oemm_run.specs.Outside.{Outside};

/// However a command ends, bytes were taken from the front of each source's; the script is touched only where the mesh
/// was read and is a manifold; and every end before the writes leaves both sinks as they were, where at the writes the
/// script was read to its end.
#[tactic(auto, using(crate::proofs::Leavings::takes_fronts, crate::proofs::Leavings::minds_script, crate::proofs::Leavings::leaves_sinks))]
pub fn leaving_laws()
    ensures sources { (words : List (List ℕ)) (before after : Outside) (end : End) → Gives words before after end
        → TakesFronts before after }
    ensures script { (words : List (List ℕ)) (before after : Outside) (end : End) → Gives words before after end
        → MindsScript before after }
    ensures sinks { (words : List (List ℕ)) (before after : Outside) (end : End) → Gives words before after end
        → LeavesSinks before after end }
{}
