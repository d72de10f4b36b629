//! What follows from the definitions of contents, of what is told, and of what crashes leave.

ghost use Rattle.std.specs.Prelude.{◌≡◌, ◌⊎◌, cond, false, ℕ, ◌+◌, ◌<◌, ◌==◌, List, [], ◌∷◌, ◌++◌, codes};
ghost use Rattle.std.specs.Prelude.{Option, Some, None, Result, Ok, Err, IsErr};
ghost use Rattle.std.specs.List.{AllByRecursion, list_any};
ghost use Rattle.std.specs.Option.{option_map};
ghost use Rattle.fault_counts.specs.Counts.{last_count};
ghost use Rattle.oemm_blobs.specs.Content.{Content, is_same_key, no_content, blob_at, with_blob, changed};
ghost use Rattle.oemm_blobs.specs.Memory.{after_calls, armed_with, fails_next};
ghost use Rattle.oemm_blobs.specs.Names.{file_name, HasShortNumbers};
ghost use Rattle.oemm_blobs.specs.Store.{IfTold, IsCalmWith, Elapses, LeavesOnly, Changes, Keeps};
ghost use Rattle.oemm_blobs.specs.Store.{IsAfterPrefix, StopsBefore, ChangesInTurn};
ghost use Rattle.oemm_blobs.specs.declared.blobs.StoreFail.{StoreFail};
ghost use Rattle.oemm_blobs.specs.declared.keys.Change.{Change};
ghost use Rattle.oemm_blobs.specs.declared.keys.Key.{Key};

use crate::blobs::Blobs;

/// A property of contents.
pub trait Property {
    ghost holds: { Content → Type 0 };
}

/// What stands under a key after a change. Contents with the same bytes under each key are equal.
#[tactic(auto, using(crate::proofs::ContentLaws::at_with_blob, crate::proofs::ContentLaws::at_no_content, crate::proofs::ContentLaws::same_content))]
pub fn content_laws()
    ensures empty { (key : Key) → blob_at no_content key ≡ None }
    ensures with_blob { (key other : Key) (bytes : Option (List ℕ)) (content : Content)
        → blob_at (with_blob key bytes content) other ≡ cond (is_same_key key other) bytes (blob_at content other) }
    ensures same { (content other : Content) → ((key : Key) → blob_at content key ≡ blob_at other key)
        → content ≡ other }
{}

/// What is told after a change has a property where what was told has it after the change, and the other way round.
#[tactic(auto, using(crate::proofs::Told::told_after, crate::proofs::Told::told_before, crate::proofs::Told::told_weaker))]
pub fn told_laws<P: Property, Q: Property>()
    ensures after { (told : Option Content) (change : Content → Content) → IfTold told (λ m. P.holds (change m))
        → IfTold (option_map change told) P.holds }
    ensures before { (told : Option Content) (change : Content → Content) → IfTold (option_map change told) P.holds
        → IfTold told (λ m. P.holds (change m)) }
    ensures weaker { (told : Option Content) → ((m : Content) → P.holds m → Q.holds m) → IfTold told P.holds
        → IfTold told Q.holds }
{}

/// How what crashes leave goes on from call to call: before the first, in one, from one to the next, and by a weaker
/// property. A store that says of each content that it may be left is never calm.
#[tactic(auto, using(crate::proofs::Crashes::at_start, crate::proofs::Crashes::in_call, crate::proofs::Crashes::then_leaves, crate::proofs::Crashes::weakened))]
pub fn crash_laws<B: Blobs, P: Property, Q: Property>()
    ensures start { (s : B) → ((left : Content) → (B.store s).left_since (B.store s).clock left → P.holds left)
        → LeavesOnly (B.store s) (B.store s) P.holds }
    ensures call { (old new : B) → Elapses (B.store old) (B.store new)
        → ((left : Content) → (B.store new).left_since (B.store old).clock left → P.holds left)
        → LeavesOnly (B.store old) (B.store new) P.holds }
    ensures next { (old mid new : B) → LeavesOnly (B.store old) (B.store mid) P.holds
        → LeavesOnly (B.store mid) (B.store new) P.holds → LeavesOnly (B.store old) (B.store new) P.holds }
    ensures weaker { (old new : B) → LeavesOnly (B.store old) (B.store new) P.holds
        → ((left : Content) → P.holds left → Q.holds left) → LeavesOnly (B.store old) (B.store new) Q.holds }
    ensures untold { (s : B) (content : Content) → ((time : ℕ) (left : Content) → (B.store s).left_since time left)
        → IsCalmWith (B.store s) content → ⊥ }
{}

/// How changes are made in turn: none yet, one more whatever is answered, no more after a refusal, and others of no
/// effect between them.
#[tactic(auto, using(crate::proofs::InTurn::none_yet))]
pub fn turn_laws<B: Blobs, T, U>()
    ensures none_yet { (s : B) (v : T) → ChangesInTurn {T = T} [] (B.store s) (B.store s) (Ok v) }
    ensures one_more { (changes : List Change) (old mid new : B) (v : T) (change : Change) (result : Result U StoreFail)
        → ChangesInTurn {T = T} changes (B.store old) (B.store mid) (Ok v)
        → Changes change (B.store mid) (B.store new) result
        → ChangesInTurn (changes ++ change ∷ []) (B.store old) (B.store new) result }
    ensures stopped { (changes more : List Change) (old new : B) (fail : StoreFail) (result : Result U StoreFail)
        → IsErr result → ChangesInTurn {T = T} changes (B.store old) (B.store new) (Err fail)
        → ChangesInTurn (changes ++ more) (B.store old) (B.store new) result }
    ensures kept { (changes : List Change) (old mid new : B) (v : T) (w : U)
        → ChangesInTurn {T = T} changes (B.store old) (B.store mid) (Ok v) → Keeps (B.store mid) (B.store new)
        → ChangesInTurn {T = U} changes (B.store old) (B.store new) (Ok w) }
{}

/// Once calls were armed, those of their numbers fail, and no others.
#[tactic(auto, using(crate::proofs::ArmedLaws::armed_fail))]
pub fn armed_laws()
    ensures { (numbers : List ℕ) (made : ℕ) → made < last_count
        → fails_next (after_calls made (armed_with numbers)) ≡ list_any (λ number. number == made + 1) numbers }
{}

/// What a prefix of changes leaves: it lacks the last of them or has them all, and lacks the last after a refusal; and
/// what stands under a key that no change has is as it was.
#[tactic(auto, using(crate::proofs::InTurn::prefix_or_all, crate::proofs::InTurn::spared))]
pub fn prefix_laws()
    ensures prefix_or_all { (changes : List Change) (last : Change) (content left : Content)
        → IsAfterPrefix (changes ++ last ∷ []) content left
        → IsAfterPrefix changes content left ⊎ (left ≡ changed (changes ++ last ∷ []) content) }
    ensures stops_short { (changes : List Change) (last : Change) (content left : Content)
        → StopsBefore (changes ++ last ∷ []) (Some content) (Some left) → IsAfterPrefix changes content left }
    ensures spared { (changes : List Change) (key : Key) (content : Content)
        → AllByRecursion (λ change. is_same_key change.key key ≡ false) changes
        → blob_at (changed changes content) key ≡ blob_at content key }
{}

/// Keys that differ have files of different names, and no file of a key is one that a put writes first.
#[tactic(auto, using(crate::proofs::NameLaws::names_differ))]
pub fn name_laws()
    ensures differ { (key other : Key) → HasShortNumbers key → HasShortNumbers other → file_name key ≡ file_name other
        → key ≡ other }
    ensures second { (key other : Key) → HasShortNumbers other → file_name key ++ codes ".new" ≡ file_name other → ⊥ }
{}
