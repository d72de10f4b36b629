//! What follows from the definitions of journals and of where a text goes wrong.

ghost use Rattle.std.specs.Prelude.{◌≡◌, ◌+◌, ◌≤◌, ◌^◌, ◌⊎◌, ℕ, List, Result, Ok, Err, length, map};
ghost use Rattle.std.specs.List.{AllByRecursion};
ghost use Rattle.mesh_data.specs.declared.edits.Entry.{Entry};
ghost use Rattle.sheet_data.specs.declared.index.NumberedEntry.{NumberedEntry};
ghost use Rattle.commit_journal.specs.Text.{journal_text};
ghost use Rattle.leaf_codec.specs.Entries.{FitsEntry, KeepsEntryRules};
ghost use Rattle.journal_reader.specs.Journal.{Answers, GoesWrongIn, IsTold, ReadsAs, bare};

use crate::fault::JournalFault;

/// A text is that of one list of entries at most, and goes wrong in one line at most. Where it is a journal's, its
/// entries are what is answered, or want of memory.
pub fn reading_laws()
    ensures one { (text : List ℕ) (a b : List Entry) → ReadsAs text a → ReadsAs text b → a ≡ b }
    ensures line { (text : List ℕ) (m n : ℕ) → GoesWrongIn m text → GoesWrongIn n text → m ≡ n }
    ensures again { (text : List ℕ) (entries : List Entry) (answer : Result (List Entry) JournalFault) →
        ReadsAs text entries → Answers text answer → (answer ≡ Ok entries) ⊎ (answer ≡ Err JournalFault.Memory) }
{}

/// The text of entries is that of the entries without their leaves. An entry that has a spelling can be told.
pub fn written_laws()
    ensures text { (first : ℕ) (entries : List Entry) → first + length entries ≤ 2 ^ 32 →
        AllByRecursion IsTold (map bare entries) → ReadsAs (journal_text first entries) (map bare entries) }
    ensures spelled { (n : NumberedEntry) → FitsEntry n → KeepsEntryRules n → IsTold (bare n.entry) }
{}
