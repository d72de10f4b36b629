//! What follows from the definitions of counts and of what is told.

ghost use Rattle.std.specs.Prelude.{ℕ, ◌≤◌, List, [], ◌++◌};
ghost use Rattle.fault_counts.specs.Counts.{last_count, next_count, Rose, IsCalm};
ghost use Rattle.fault_counts.specs.Told.{Told, Takes, TakesSome, Puts};

/// A count doesn't fall where it rises. One that rose isn't calm, and goes on having risen while it doesn't fall; one
/// that is calm over two calls is calm over each of them.
pub fn count_laws()
    ensures next { (n : ℕ) → n ≤ last_count → n ≤ next_count n }
    ensures rose { (before now : ℕ) → Rose before now → IsCalm before now → ⊥ }
    ensures later { (before now later : ℕ) → Rose before now → now ≤ later → Rose before later }
    ensures earlier { (before now later : ℕ) → before ≤ now → Rose now later → Rose before later }
    ensures calm_first { (before now later : ℕ) → before ≤ now → now ≤ later → IsCalm before later → IsCalm before now }
    ensures calm_last { (before now later : ℕ) → before ≤ now → now ≤ later → IsCalm before later → IsCalm now later }
{}

/// Takes behind one another are one take of their bytes in a row, and puts are one put.
#[tactic(auto, using(crate::proofs::InRow::takes_none, crate::proofs::InRow::takes_more, crate::proofs::InRow::puts_none, crate::proofs::InRow::puts_more))]
pub fn told_laws()
    ensures takes_none { (left : Told) → Takes left left [] }
    ensures takes { (old mid new : Told) (first second : List ℕ) → Takes old mid first → Takes mid new second
        → Takes old new (first ++ second) }
    ensures takes_some { (old mid new : Told) → TakesSome old mid → TakesSome mid new → TakesSome old new }
    ensures puts_none { (written : Told) → Puts written written [] }
    ensures puts { (old mid new : Told) (first second : List ℕ) → Puts old mid first → Puts mid new second
        → Puts old new (first ++ second) }
{}
