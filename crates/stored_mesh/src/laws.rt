//! What follows from the definitions of sound stores.

ghost use Rattle.std.specs.Prelude.{◌≡◌, ◌<◌, ◌≤◌, ◌+◌, ℕ, List, [], ◌∷◌, ◌++◌, map, length, true, false, Some, None, if◌then◌else◌};
ghost use Rattle.oemm_limits.specs.declared.TheConstants.{MOST_TASKS};
ghost use Rattle.oemm_octree.specs.Leaves.{is_one_of};
ghost use Rattle.mesh_data.specs.declared.edits.Entry.{Entry};
ghost use Rattle.mesh_data.specs.declared.edits.Reply.{Reply};
ghost use Rattle.mesh_data.specs.declared.edits.Task.{Task};
ghost use Rattle.mesh_data.specs.Work.{do_task};
ghost use Rattle.sheet_data.specs.declared.patches.Patch.{Patch};
ghost use Rattle.sheet_data.specs.declared.sheets.LeafSheet.{LeafSheet};
ghost use Rattle.oemm_blobs.specs.Content.{Content, blob_at, with_blob};
ghost use Rattle.oemm_blobs.specs.declared.keys.Key.{Key};
ghost use Rattle.oemm_blobs.specs.declared.keys.Key.TheVariants as key;
ghost use Rattle.mesh_sheets.specs.Sheets.{sheet};
ghost use Rattle.mesh_sheets.specs.Written.{sheets_of};
ghost use Rattle.sheet_forms.specs.Storable.{IsStorable};
ghost use Rattle.stored_mesh.specs.Commits.{IsFinished, IsPut, IsSameBut, IsUnderWay, entry_of};
ghost use Rattle.stored_mesh.specs.Stored.{Base, BytesAt, HasEntries, IsChecked, IsSound, IsUnbuilt, Spelling, mesh_of, spelled};
ghost use Rattle.stored_mesh.specs.Versions.{next_of, version};

/// An entry gives the leaves of its core the version of its number and one, and leaves the versions of all others. No
/// version is above the number of entries.
pub fn version_laws()
    ensures begins { (leaf : ℕ) → version [] leaf ≡ 0 }
    ensures next { (journal : List Entry) (e : Entry) (leaf : ℕ) → version (journal ++ e ∷ []) leaf
        ≡ (if is_one_of e.core leaf then length journal + 1 else version journal leaf) }
    ensures below { (journal : List Entry) (leaf : ℕ) → version journal leaf ≤ length journal }
{}

/// What is sound is checked, and what is checked isn't unbuilt. The entries of a checked store, read up to the first that
/// is absent, are its journal. The mesh of a sound store can stand in sheets.
pub fn store_laws()
    ensures checked { (spell : Spelling) (at : BytesAt) (b : Base) (journal : List Entry) → IsSound spell at b journal
        → IsChecked spell at b journal }
    ensures built { (spell : Spelling) (at : BytesAt) (b : Base) (journal : List Entry) → IsChecked spell at b journal
        → IsUnbuilt at → ⊥ }
    ensures opened { (spell : Spelling) (at : BytesAt) (b : Base) (journal es : List Entry)
        → IsChecked spell at b journal → length es ≤ MOST_TASKS → HasEntries spell at es
        → (length es < MOST_TASKS → at (key.Entry (length es)) ≡ None) → es ≡ journal }
    ensures storable { (spell : Spelling) (at : BytesAt) (b : Base) (journal : List Entry) → IsSound spell at b journal
        → IsStorable b.index.cells (length b.soup.points) (mesh_of b journal) }
{}

/// What a put makes of the content of a store.
pub fn put_laws()
    ensures { (content : Content) (k : Key) (bytes : List ℕ)
        → IsPut (blob_at content) k bytes (blob_at (with_blob k (Some bytes) content)) }
{}

/// The puts of a commit, one by one. None is made at first, and each sheet's put makes one more. As long as the entry
/// isn't put, the store is sound with the journal before the commit, whichever sheets were put; and even whatever else
/// stands under the keys of the commit's sheets.
pub fn way_laws()
    ensures begins { (spell : Spelling) (at : BytesAt) (n : ℕ) → IsUnderWay spell at at n [] }
    ensures next { (spell : Spelling) (at now new : BytesAt) (n : ℕ) (done : List LeafSheet) (s : LeafSheet)
        (bytes : List ℕ) → IsUnderWay spell at now n done → IsPut now (key.Leaf s.leaf (n + 1)) bytes new
        → spell.sheet bytes ≡ Some s → is_one_of (map (λ x. x.leaf) done) s.leaf ≡ false
        → IsUnderWay spell at new n (done ++ s ∷ []) }
    ensures sound { (spell : Spelling) (at now : BytesAt) (b : Base) (journal : List Entry) (done : List LeafSheet)
        → IsSound spell at b journal → IsUnderWay spell at now (length journal) done → IsSound spell now b journal }
    ensures torn { (spell : Spelling) (at now : BytesAt) (b : Base) (journal : List Entry) → IsSound spell at b journal
        → IsSameBut (length journal) at now → now (key.Entry (length journal)) ≡ None → IsSound spell now b journal }
{}

/// Once all sheets of the new patch and the entry are put, the store is sound with the entry behind the journal. So it
/// is after any task whose entry, wide or not, and sheets stand in it.
pub fn commit_laws()
    ensures finished { (spell : Spelling) (at now new : BytesAt) (b : Base) (journal : List Entry) (task : Task)
        (replies : List Reply) (core : List ℕ) (p : Patch) (bytes : List ℕ) → IsSound spell at b journal
        → length journal < MOST_TASKS → task.number ≡ next_of journal task.lane
        → IsFinished b.index.cells b.index.core (mesh_of b journal) task replies core p
        → IsUnderWay spell at now (length journal) (sheets_of b.index.cells p)
        → IsPut now (key.Entry (length journal)) bytes new
        → spell.entry bytes ≡ Some (record { number = length journal; entry = entry_of task replies core })
        → IsSound spell new b (journal ++ entry_of task replies core ∷ []) }
    ensures done { (spell : Spelling) (at new : BytesAt) (b : Base) (journal : List Entry) (task : Task)
        → IsSound spell at b journal → IsSameBut (length journal) at new → length journal < MOST_TASKS
        → task.number ≡ next_of journal task.lane
        → (let did = do_task b.index.cells b.index.core (mesh_of b journal) task in
        spelled spell.entry (new (key.Entry (length journal)))
        ≡ Some (record { number = length journal; entry = did.entry })
        → ((leaf : ℕ) → is_one_of did.entry.core leaf ≡ true → leaf < length b.index.cells
        → spelled spell.sheet (new (key.Leaf leaf (length journal + 1))) ≡ Some (sheet b.index.cells did.mesh leaf))
        → IsSound spell new b (journal ++ did.entry ∷ [])) }
{}
