//! The puts of a commit, and its entry in the journal.

ghost use Rattle.std.specs.Prelude.{◌≡◌, ◌≢◌, ◌<◌, ◌≤◌, ◌+◌, ◌++◌, ◌∷◌, ◌⊎◌, [], ℕ, List, All, length, map, slice_index, Some, IfErr, IfOk, OnErr, OnOk};
ghost use Rattle.std.specs.List.Sorted.{IsStrictlyIncreasing};
ghost use Rattle.fault_counts.specs.Counts.{TellsFailure};
ghost use Rattle.oemm_limits.specs.declared.TheConstants.{MOST_TASKS};
ghost use Rattle.oemm_octree.specs.Leaves.{AreBelow};
ghost use Rattle.mesh_data.specs.declared.edits.Entry.{Entry};
ghost use Rattle.leaf_codec.specs.Entries.{KeepsEntryRules};
ghost use Rattle.leaf_codec.specs.Sheets.{KeepsSheetRules};
ghost use Rattle.oemm_blobs.specs.declared.keys.Key.TheVariants as key;
ghost use Rattle.store_spelling.specs.Spelled.{store_spelling};
ghost use Rattle.oemm_shelf.specs.Cached.{RoseBy};
ghost use Rattle.oemm_shelf.specs.Shelves.{AreRaised, IsSame, Puts};
ghost use Rattle.oemm_shelf.specs.Shown.{CountLanes};
ghost use Rattle.oemm_desk.specs.Answered.{told_by};
ghost use Rattle.oemm_desk.specs.Commits.{CountsPuts, PutsCommit, PutsSheets};
ghost use Rattle.oemm_desk.specs.declared.fault.CommitFault.TheVariants as commit;

use crate::counting::count_task;
use crate::fault::CommitFault;
use mesh_data::{Entries, Entry};
use oemm_blobs::{Blobs, StoreFail};
use oemm_shelf::Shelf;
use sheet_data::LeafSheet;
use std::alloc::Global;
use std::mem;
use store_spelling::laws::writing_laws;

/// Puts the sheet of a leaf in a version.
///
/// # Errors
/// `Failed` where the store fails, and `Memory`.
fn put_sheet<B: Blobs>(
    alloc: Global,
    shelf: &mut Shelf<B>,
    version: u32,
    sheet: &LeafSheet,
) -> Result<(), StoreFail>
    requires { KeepsSheetRules sheet.now }
    ensures puts { Puts (key.Leaf sheet.now.leaf version) (λ bytes. store_spelling.sheet bytes ≡ Some sheet.now)
        (B.store shelf.old.blobs) (B.store shelf.new.blobs) result }
    ensures same { IsSame shelf.old shelf.new }
    ensures cause { TellsFailure StoreFail.Failed
        (B.store shelf.old.blobs).faults (B.store shelf.new.blobs).faults result }
{
    writing_laws();
    shelf.put_sheet(alloc, version, sheet)
}

/// Puts the sheets of commit `number`, in their order, under the version behind it.
///
/// # Errors
/// `Failed` where the store fails, and `Memory`.
fn put_sheets<B: Blobs>(
    alloc: Global,
    shelf: &mut Shelf<B>,
    number: u32,
    sheets: &[LeafSheet],
) -> Result<(), StoreFail>
    requires number { number < MOST_TASKS }
    requires rules { All KeepsSheetRules sheets.now }
    requires leaves { IsStrictlyIncreasing (map (λ s. s.leaf) sheets.now) }
    ensures puts { OnOk result (PutsSheets number sheets.now (B.store shelf.old.blobs) (B.store shelf.new.blobs)) }
    ensures refused { OnErr result ((e : Entry)
        → PutsCommit number sheets.now e (B.store shelf.old.blobs) (B.store shelf.new.blobs) result) }
    ensures same { IsSame shelf.old shelf.new }
    ensures counts { CountsPuts (length sheets.now) (B.store shelf.old.blobs) (B.store shelf.new.blobs) }
    ensures all { OnOk result (RoseBy (length sheets.now)
        (B.store shelf.old.blobs).puts (B.store shelf.new.blobs).puts) }
    ensures cause { TellsFailure StoreFail.Failed
        (B.store shelf.old.blobs).faults (B.store shelf.new.blobs).faults result }
{
    for sheet in sheets {
        put_sheet(alloc, shelf, number + 1, sheet)?;
    }
    Ok(())
}

/// Puts the sheets of commit `number`, and then its entry.
///
/// # Errors
/// `Failed` where the store fails, and `Memory`.
fn put_commit<B: Blobs>(
    alloc: Global,
    shelf: &mut Shelf<B>,
    number: u32,
    sheets: &[LeafSheet],
    entry: &Entry,
) -> Result<(), StoreFail>
    requires number { number < MOST_TASKS }
    requires sheet_rules { All KeepsSheetRules sheets.now }
    requires leaves { IsStrictlyIncreasing (map (λ s. s.leaf) sheets.now) }
    requires rules { KeepsEntryRules (record { number = number; entry = entry.now }) }
    requires core { AreBelow (length shelf.old.index.cells) entry.now.core }
    ensures puts { PutsCommit number sheets.now entry.now (B.store shelf.old.blobs) (B.store shelf.new.blobs) result }
    ensures index { shelf.new.index ≡ shelf.old.index }
    ensures capacity { shelf.new.capacity ≡ shelf.old.capacity }
    ensures raised { OnOk result (AreRaised entry.now.core number shelf.old.versions shelf.new.versions) }
    ensures kept { OnErr result (shelf.new.versions ≡ shelf.old.versions) }
    ensures counts { CountsPuts (length sheets.now + 1) (B.store shelf.old.blobs) (B.store shelf.new.blobs) }
    ensures all { OnOk result (RoseBy (length sheets.now + 1)
        (B.store shelf.old.blobs).puts (B.store shelf.new.blobs).puts) }
    ensures cause { TellsFailure StoreFail.Failed
        (B.store shelf.old.blobs).faults (B.store shelf.new.blobs).faults result }
{
    writing_laws();
    put_sheets(alloc, shelf, number, sheets)?;
    shelf.put_entry(alloc, number, entry)
}

/// Takes the last entry off.
fn take_last(alloc: Global, entries: &mut Entries) -> Entry
    requires { (before : List Entry) × (last : Entry) × (entries.old ≡ before ++ last ∷ []) }
    ensures { entries.old ≡ entries.new ++ result ∷ [] }
{
    let mut items = mem::replace(entries, Entries::new(alloc)).into_vec();
    let last = items.pop().unwrap();
    *entries = Entries::from_vec(items);
    last
}

/// Journals an entry: its sheets are put, and then the entry. Its place in the journal is taken before the first put.
///
/// # Errors
/// `Store` where the store fails, and `Memory`. The entry is handed back, and the journal is as it was.
pub fn journal_entry<B: Blobs>(
    alloc: Global,
    shelf: &mut Shelf<B>,
    lanes: &mut Vec<u32>,
    journal: &mut Entries,
    sheets: &[LeafSheet],
    entry: Entry,
) -> Result<u32, (Entry, CommitFault)>
    requires room { length journal.old < MOST_TASKS }
    requires counted { CountLanes lanes.old.items journal.old }
    requires sheet_rules { All KeepsSheetRules sheets.now }
    requires leaves { IsStrictlyIncreasing (map (λ s. s.leaf) sheets.now) }
    requires rules { KeepsEntryRules (record { number = length journal.old; entry = entry }) }
    requires core { AreBelow (length shelf.old.index.cells) entry.core }
    ensures done { IfOk result (λ n. (n ≡ length journal.old) × (journal.new ≡ journal.old ++ entry ∷ [])
        × AreRaised entry.core (length journal.old) shelf.old.versions shelf.new.versions) }
    ensures refused { IfErr result (λ e. (e.0 ≡ entry) × (journal.new ≡ journal.old)
        × (shelf.new.versions ≡ shelf.old.versions)) }
    ensures why { IfErr result (λ e. (e.1 ≡ commit.Store) ⊎ (e.1 ≡ commit.Memory)) }
    ensures counted { CountLanes lanes.new.items journal.new }
    ensures puts { PutsCommit (length journal.old) sheets.now entry
        (B.store shelf.old.blobs) (B.store shelf.new.blobs) result }
    ensures index { shelf.new.index ≡ shelf.old.index }
    ensures capacity { shelf.new.capacity ≡ shelf.old.capacity }
    ensures counts { CountsPuts (length sheets.now + 1) (B.store shelf.old.blobs) (B.store shelf.new.blobs) }
    ensures all { OnOk result (RoseBy (length sheets.now + 1)
        (B.store shelf.old.blobs).puts (B.store shelf.new.blobs).puts) }
    ensures cause { TellsFailure CommitFault.Store
        (B.store shelf.old.blobs).faults (B.store shelf.new.blobs).faults (told_by result) }
{
    let number = journal.len();
    if let Err(back) = journal.push(entry) {
        return Err((back, CommitFault::Memory));
    }
    let last = journal.at(number);
    let lane = last.task.lane;
    match put_commit(alloc, shelf, number as u32, sheets, last) {
        Ok(()) => {
            count_task(lanes, lane);
            Ok(number as u32)
        }
        Err(fail) => Err((take_last(alloc, journal), fail.into())),
    }
}
