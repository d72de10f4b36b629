//! What follows from the definitions of the changes that a build makes.

ghost use Rattle.std.specs.Prelude.{◌≡◌, ◌⊎◌, ◌+◌, ℕ, true, List, [], ◌∷◌, ◌++◌, length, Some, Ok, Err, Result};
ghost use Rattle.std.specs.List.{AllByRecursion};
ghost use Rattle.mesh_data.specs.Mesh.{start};
ghost use Rattle.oemm_blobs.specs.Content.{Content, blob_at, changed};
ghost use Rattle.oemm_blobs.specs.Store.{ChangesInTurn, IsAfterPrefix, IsCalmWith, LeavesOnly};
ghost use Rattle.oemm_blobs.specs.declared.blobs.StoreFail.{StoreFail};
ghost use Rattle.oemm_blobs.specs.declared.keys.Change.{Change};
ghost use Rattle.oemm_blobs.specs.declared.keys.Key.TheVariants as key;
ghost use Rattle.mesh_sheets.specs.Sheets.{sheet};
ghost use Rattle.stored_mesh.specs.Commits.{IsPut};
ghost use Rattle.stored_mesh.specs.Stored.{Base, BytesAt, IsSound, IsUnbuilt, Spelling};
ghost use Rattle.store_spelling.specs.Bases.{IsBase};
ghost use Rattle.build_laws.specs.Changes.{AreSheetPuts, IsIndexPut, is_aside};
ghost use Rattle.build_laws.specs.Laid.{IsAsBefore, IsLaid, IsSameButDrafts};

use oemm_blobs::Blobs;

/// The puts of a build, one by one. No sheet is laid at first, and each sheet's put lays one more, whatever is done to
/// pages and runs between them. As long as the index isn't put, a store that was unbuilt is so still; once it is put
/// behind all sheets, the store is sound, with an empty journal.
pub fn put_laws()
    ensures begins { (spell : Spelling) (at : BytesAt) (b : Base) → IsLaid spell at at b 0 }
    ensures next { (spell : Spelling) (at now new : BytesAt) (b : Base) (n : ℕ) (bytes : List ℕ)
        → IsLaid spell at now b n → IsPut now (key.Leaf n 0) bytes new
        → spell.sheet bytes ≡ Some (sheet b.index.cells (start b.soup) n) → IsLaid spell at new b (n + 1) }
    ensures drafts { (spell : Spelling) (at now new : BytesAt) (b : Base) (n : ℕ) → IsLaid spell at now b n
        → IsSameButDrafts now new → IsLaid spell at new b n }
    ensures unbuilt { (at now : BytesAt) → IsUnbuilt at → IsAsBefore at now → IsUnbuilt now }
    ensures built { (spell : Spelling) (at now new : BytesAt) (b : Base) (bytes : List ℕ) → IsUnbuilt at → IsBase b
        → IsLaid spell at now b (length b.index.cells) → IsPut now key.Index bytes new
        → spell.index bytes ≡ Some b.index → IsSound spell new b [] }
{}

/// What changes under other keys than those of index and entries leave, all of them or some: the index and the entries
/// as they were. So are the puts of sheets; and with the put of the index behind them they make an unbuilt content a
/// sound one.
pub fn content_laws()
    ensures aside { (changes : List Change) (content left : Content)
        → AllByRecursion (λ c. is_aside c.key ≡ true) changes → IsAfterPrefix changes content left
        → IsAsBefore (blob_at content) (blob_at left) }
    ensures sheets { (spell : Spelling) (b : Base) (n : ℕ) (sheets : List Change) → AreSheetPuts spell b n sheets
        → AllByRecursion (λ c. is_aside c.key ≡ true) sheets }
    ensures sound { (spell : Spelling) (b : Base) (sheets : List Change) (index : Change) (content : Content)
        → IsUnbuilt (blob_at content) → IsBase b → AreSheetPuts spell b 0 sheets → IsIndexPut spell b index
        → IsSound spell (blob_at (changed (sheets ++ index ∷ []) content)) b [] }
{}

/// What a crash leaves while changes are made of which the last alone is one of the index: the index and the entries as
/// they were, or all changes. A refusal leaves the former. Over an unbuilt store a crash in a build leaves an unbuilt
/// store or a sound one, and Ok a sound one.
pub fn crash_laws<B: Blobs, T>()
    ensures aside { (changes : List Change) (last : Change) (old new : B) (result : Result T StoreFail)
        (content : Content) → ChangesInTurn (changes ++ last ∷ []) (B.store old) (B.store new) result
        → AllByRecursion (λ c. is_aside c.key ≡ true) changes → IsCalmWith (B.store old) content
        → LeavesOnly (B.store old) (B.store new) (λ left. IsAsBefore (blob_at content) (blob_at left)
        ⊎ (left ≡ changed (changes ++ last ∷ []) content)) }
    ensures refused { (changes : List Change) (last : Change) (old new : B) (fail : StoreFail) (content now : Content)
        → ChangesInTurn {T = T} (changes ++ last ∷ []) (B.store old) (B.store new) (Err fail)
        → AllByRecursion (λ c. is_aside c.key ≡ true) changes → (B.store old).content ≡ Some content
        → (B.store new).content ≡ Some now → IsAsBefore (blob_at content) (blob_at now) }
    ensures build { (spell : Spelling) (b : Base) (sheets : List Change) (index : Change) (old new : B)
        (result : Result T StoreFail) (content : Content)
        → ChangesInTurn (sheets ++ index ∷ []) (B.store old) (B.store new) result → IsUnbuilt (blob_at content)
        → IsBase b → AreSheetPuts spell b 0 sheets → IsIndexPut spell b index → IsCalmWith (B.store old) content
        → LeavesOnly (B.store old) (B.store new)
        (λ left. IsUnbuilt (blob_at left) ⊎ IsSound spell (blob_at left) b []) }
    ensures built { (spell : Spelling) (b : Base) (sheets : List Change) (index : Change) (old new : B) (v : T)
        (content now : Content) → ChangesInTurn (sheets ++ index ∷ []) (B.store old) (B.store new) (Ok v)
        → IsUnbuilt (blob_at content) → IsBase b → AreSheetPuts spell b 0 sheets → IsIndexPut spell b index
        → (B.store old).content ≡ Some content → (B.store new).content ≡ Some now → IsSound spell (blob_at now) b [] }
{}
