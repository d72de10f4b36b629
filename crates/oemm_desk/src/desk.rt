//! The desk of a store.

ghost use Rattle.std.specs.Prelude.{◌≡◌, ◌≢◌, ◌≤◌, ◌<◌, ◌+◌, ◌^◌, ℕ, List, [], All, true, false, length, map, replicate, Some, None, IfErr, IfOk, IfSome, OnErr, OnOk};
ghost use Rattle.fault_counts.specs.Counts.{TellsFailure};
ghost use Rattle.oemm_limits.specs.declared.TheConstants.{LAST_LANE, MOST_TASKS};
ghost use Rattle.oemm_octree.specs.Leaves.{AreBelow, AreTiles};
ghost use Rattle.std.specs.List.Sorted.{IsStrictlyIncreasing};
ghost use Rattle.leaf_codec.specs.Sheets.{KeepsSheetRules};
ghost use Rattle.mesh_sheets.specs.Written.{sheets_of};
ghost use Rattle.mesh_data.specs.Keeps.{Keeps as KeepsMesh};
ghost use Rattle.mesh_data.specs.Work.{wide_entry};
ghost use Rattle.leaf_codec.specs.Entries.{KeepsEntryRules};
ghost use Rattle.oemm_blobs.specs.Store.{IfTold, Keeps};
ghost use Rattle.checkout_table.specs.Holders.{HoldersSet, holder};
ghost use Rattle.mesh_sheets.specs.Sheets.{AreApart, patch};
ghost use Rattle.sheet_forms.specs.Formed.{IsPatchFor};
ghost use Rattle.stored_mesh.specs.Commits.{IsFinished, IsSameBut};
ghost use Rattle.stored_mesh.specs.Stored.{Base, mesh_of};
ghost use Rattle.stored_mesh.specs.Versions.{next_of};
ghost use Rattle.oemm_shelf.specs.Cached.{RoseBy, lacking};
ghost use Rattle.oemm_shelf.specs.Opened.{Finds, found_in};
ghost use Rattle.oemm_shelf.specs.Readings.{Answers, current_patch};
ghost use Rattle.oemm_shelf.specs.Shelves.{IsSame};
ghost use Rattle.oemm_shelf.specs.Shown.{CountLanes, IsWithinRim, ShowsFound, ShowsPatch};
ghost use Rattle.oemm_desk.specs.Answered.{AsksPatch, CommitAnswers, GivesPatch, HasCause, IsFounded, MayCommit, TakeAnswers, WideAnswers, box_core, finished_entry, found_by, left_by, next_task, told_by};
ghost use Rattle.oemm_desk.specs.Commits.{CommitsSafely, CountsPuts, PutsCommit, TellsAfter};
ghost use Rattle.oemm_desk.specs.Images.{IsLater, image_of};
ghost use Rattle.oemm_desk.specs.Desks.{AreHeld, HoldsJust, HoldsNone, IsDesk, IsSoundAt};
ghost use Rattle.oemm_desk.specs.declared.fault.CommitFault.TheVariants as commit;

use crate::counting::count_lanes;
use crate::fault::{CommitFault, Finished, TakeFault, Taken};
use crate::journaling::journal_entry;
use crate::taking::patch_or_release;
use checkout_table::Table;
use mesh_data::{Edits, Entries, Entry, Lane, Replies, Task};
use oemm_blobs::Blobs;
use oemm_limits::MOST_TASKS;
use oemm_octree::{Cells, LeafNo, LeafSet, Point, count_meeting, meeting};
use oemm_shelf::{FoundFault, Shelf, ShelfFault};
use sheet_data::{Patch, Sheets};
use std::alloc::{AllocError, Global};
use std::marker::Model;
use write_back::sheets_of;

/// The desk of a store: its sheets, who holds which leaves, and the journal. Lanes check cores out, and commit a task
/// and its edits on them.
///
/// It keeps no mesh: what it needs of the mesh it reads from the store.
#[derive(Drop)]
pub struct Desk<B: Blobs> {
    shelf: Shelf<B>,
    table: Table,
    lanes: Vec<u32>,
    journal: Entries,
}

impl<B: Blobs> Model for Desk<B> {
    ghost use Rattle.oemm_shelf.specs.Shown.{CountLanes};
    ghost use Rattle.oemm_desk.specs.Desks.{DeskState, IsDesk};

    ghost Value = { DeskState B };

    ghost view = { λ d. record { shelf = d.shelf; holders = d.table; journal = d.journal } };

    ghost invariant = { λ d. IsDesk d.shelf.index d.shelf.versions d.table d.journal × CountLanes d.lanes.items d.journal };
}

/// A table without holders for so many leaves, and the numbers of the lanes' next tasks behind these entries.
fn tables_of(
    alloc: Global,
    leaves: usize,
    entries: &Entries,
) -> Result<(Table, Vec<u32>), AllocError>
    requires leaves { leaves < 2 ^ 32 }
    requires few { length entries.now ≤ MOST_TASKS }
    requires lanes { All (λ e. e.task.lane ≤ LAST_LANE) entries.now }
    ensures table { IfOk result (λ x. x.0 ≡ replicate leaves None) }
    ensures lanes { IfOk result (λ x. CountLanes x.1.items entries.now) }
{
    let table = Table::new(alloc, leaves as u32)?;
    let lanes = count_lanes(alloc, entries.slice())?;
    Ok((table, lanes))
}

/// The sheets of the core of what was done.
fn sheets_for(alloc: Global, cells: &Cells, done: &Finished) -> Result<Sheets, AllocError>
    requires tiles { AreTiles cells.now }
    requires formed { IsPatchFor cells.now done.now.core done.now.patch }
    ensures sheets { IfOk result (λ sheets. sheets ≡ sheets_of cells.now done.now.patch) }
    ensures leaves { IfOk result (λ sheets. map (λ s. s.leaf) sheets ≡ done.now.core) }
{
    sheets_of(alloc, &done.patch, cells, &done.core)
}

/// The entry of what was done, and its patch.
fn parted(done: Finished) -> (Entry, Patch)
    ensures entry { result.0 ≡ finished_entry done }
    ensures patch { result.1 ≡ done.patch }
{
    let entry = Entry {
        task: done.task,
        wide: false,
        replies: done.replies,
        core: done.core,
    };
    (entry, done.patch)
}

/// What was done, from its entry and its patch.
fn joined(entry: Entry, patch: Patch) -> Finished
    ensures { result ≡ record { task = entry.task; replies = entry.replies; core = entry.core; patch = patch } }
{
    Finished {
        task: entry.task,
        replies: entry.replies,
        core: entry.core,
        patch,
    }
}

impl<B: Blobs> Desk<B> {
    /// The desk of a built store, at which no leaf is held. It reads the index and the entries of the journal, and no
    /// sheet. Its shelf may keep so many sheets.
    ///
    /// # Errors
    /// As those of a shelf that is opened. The store is handed back.
    pub fn found(alloc: Global, blobs: B, cache: u32) -> Result<Desk<B>, (B, FoundFault)>
        ensures told { IfTold (B.store blobs).content (λ m. Finds (found_by result) (found_in m)) }
        ensures shows { IfErr result (λ failed. ShowsFound failed.1) }
        ensures founded { IfOk result (λ desk. IsFounded desk cache) }
        ensures keeps { Keeps (B.store blobs) (B.store (left_by result)) }
        ensures kept_gets { (B.store blobs).gets ≤ (B.store (left_by result)).gets }
        ensures gets { IfOk result
            (λ desk. (B.store (left_by result)).gets ≤ (B.store blobs).gets + (length desk.journal + 2)) }
        ensures puts { (B.store (left_by result)).puts ≡ (B.store blobs).puts }
        ensures cause { TellsFailure (FoundFault.Shelf ShelfFault.Store)
            (B.store blobs).faults (B.store (left_by result)).faults (found_by result) }
    {
        let (shelf, journal) = match Shelf::open(alloc, blobs, cache) {
            Ok(opened) => opened,
            Err(failed) => return Err(failed),
        };
        match tables_of(alloc, shelf.cells().len(), &journal) {
            Ok((table, lanes)) => Ok(Desk {
                shelf,
                table,
                lanes,
                journal,
            }),
            Err(_) => Err((shelf.into_blobs(), FoundFault::Shelf(ShelfFault::Memory))),
        }
    }

    /// What is so of every desk.
    pub fn known(&self)
        ensures { IsDesk self.now.shelf.index self.now.shelf.versions self.now.holders self.now.journal }
    {
        let _ = &self.shelf;
    }

    /// The number of leaves of a box's core.
    pub fn leaves_of(&self, low: Point, high: Point) -> u32
        ensures { result ≡ length (box_core self.now low high) }
    {
        count_meeting(self.shelf.cells(), low, high)
    }

    /// The most leaves that a task may check out.
    pub fn limit(&self) -> u32
        ensures { result ≡ self.now.shelf.index.core }
    {
        self.shelf.index().core
    }

    /// The number of the lane's next task.
    pub fn next_of(&self, lane: Lane) -> u32
        requires { lane ≤ LAST_LANE }
        ensures { result ≡ next_of self.now.journal lane }
    {
        self.lanes[lane.0 as usize]
    }

    /// Whether the lane holds a leaf. It asks leaf by leaf.
    pub fn holds(&self, lane: Lane) -> bool
        ensures none { result ≡ false → HoldsNone self.now.holders lane }
        ensures some { result ≡ true → (leaf : ℕ) × (holder self.now.holders leaf ≡ Some lane) }
    {
        for leaf in 0..self.shelf.cells().len() as u32 {
            if self.table.holder(LeafNo(leaf)) == Some(lane) {
                return true;
            }
        }
        false
    }

    /// The lane that holds the leaf, if there is one.
    pub fn holder(&self, leaf: LeafNo) -> Option<Lane>
        ensures { result ≡ holder self.now.holders leaf }
    {
        self.table.holder(leaf)
    }

    /// The entries so far.
    pub fn journal(&self) -> &Entries
        ensures { result.now ≡ self.now.journal }
    {
        &self.journal
    }

    /// The cells of the octree.
    pub fn cells(&self) -> &Cells
        ensures cells { result.now ≡ self.now.shelf.index.cells }
        ensures tiles { AreTiles result.now }
    {
        self.shelf.cells()
    }

    /// The shelf of the store, and the journal.
    pub fn into_parts(self) -> (Shelf<B>, Entries)
        ensures shelf { result.0 ≡ self.shelf }
        ensures journal { result.1 ≡ self.journal }
    {
        let Desk {
            shelf,
            table: _,
            lanes: _,
            journal,
        } = self;
        (shelf, journal)
    }

    /// Gives a core back. It takes no memory.
    pub fn abandon(&mut self, core: &LeafSet)
        requires { AreHeld self.old.holders core.now }
        ensures holders { HoldersSet None core.now self.old.holders self.new.holders }
        ensures shelf { self.new.shelf ≡ self.old.shelf }
        ensures journal { self.new.journal ≡ self.old.journal }
        ensures later { IsLater (image_of (B.store self.old.shelf.blobs) self.old) (image_of (B.store self.new.shelf.blobs) self.new) }
    {
        self.table.release(core);
    }

    /// Checks the core of a box out for a lane, with its patch. The sheets of the core and of the leaves round it are
    /// read, each once, and no others.
    ///
    /// # Errors
    /// `Wide` where the core has more leaves than a task may check out; `Busy` where one of them is held; what the shelf
    /// says; and want of memory. The lane then holds nothing more.
    pub fn checkout(
        &mut self,
        alloc: Global,
        lane: Lane,
        low: Point,
        high: Point,
    ) -> Result<Taken, TakeFault>
        requires lane { lane ≤ LAST_LANE }
        requires free { HoldsNone self.old.holders lane }
        ensures answers { TakeAnswers lane low high self.old self.new result }
        ensures told { IfTold (B.store self.old.shelf.blobs).content (λ m. AsksPatch
            (λ r. Answers r (current_patch self.old.shelf.index self.old.shelf.versions m (box_core self.old low high))) result) }
        ensures shows { AsksPatch (ShowsPatch self.old.shelf.index self.old.shelf.versions (box_core self.old low high)
            (B.store self.old.shelf.blobs).gets (B.store self.new.shelf.blobs).gets) result }
        ensures sound { (b : Base) → IsSoundAt (B.store self.old.shelf.blobs) self.old.shelf.index self.old.journal b
            → AsksPatch (GivesPatch (patch b.index.cells (mesh_of b self.old.journal) (box_core self.old low high))) result }
        ensures shelf { IsSame self.old.shelf self.new.shelf }
        ensures journal { self.new.journal ≡ self.old.journal }
        ensures later { IsLater (image_of (B.store self.old.shelf.blobs) self.old) (image_of (B.store self.new.shelf.blobs) self.new) }
        ensures keeps { Keeps (B.store self.old.shelf.blobs) (B.store self.new.shelf.blobs) }
        ensures kept_gets { (B.store self.old.shelf.blobs).gets ≤ (B.store self.new.shelf.blobs).gets }
        ensures puts { (B.store self.new.shelf.blobs).puts ≡ (B.store self.old.shelf.blobs).puts }
        ensures rim { AsksPatch (λ _. IsWithinRim self.old.shelf.index self.old.shelf.versions (box_core self.old low high)
            (B.store self.old.shelf.blobs).content (B.store self.old.shelf.blobs).gets (B.store self.new.shelf.blobs).gets
            self.old.shelf.cached self.new.shelf.cached) result }
        ensures each { OnOk result (RoseBy (lacking self.old.shelf.cached self.old.shelf.versions (box_core self.old low high))
            (B.store self.old.shelf.blobs).gets (B.store self.new.shelf.blobs).gets) }
        ensures cause { TellsFailure (TakeFault.Shelf ShelfFault.Store)
            (B.store self.old.shelf.blobs).faults (B.store self.new.shelf.blobs).faults result }
    {
        let leaves = self.leaves_of(low, high);
        if leaves > self.limit() {
            return Err(TakeFault::Wide { leaves });
        }
        let number = self.next_of(lane);
        let Ok(core) = meeting(alloc, self.shelf.cells(), low, high) else {
            return Err(TakeFault::Memory);
        };
        if let Err(busy) = self.table.take(&core, lane) {
            return Err(TakeFault::Busy {
                leaf: busy.leaf,
                lane: busy.lane,
            });
        }
        match patch_or_release(alloc, &mut self.shelf, &mut self.table, &core) {
            Ok(patch) => Ok(Taken {
                lane,
                number,
                low,
                high,
                core,
                patch,
            }),
            Err(fault) => Err(TakeFault::Shelf(fault)),
        }
    }

    /// Why a task may not be committed now, if it may not.
    fn refusal(&self, task: &Task) -> Option<CommitFault>
        requires { task.now.lane ≤ LAST_LANE }
        ensures none { result ≡ None → MayCommit self.now.journal task.now.lane task.now.number }
        ensures some { IfSome result (HasCause task.now.lane task.now.number self.now self.now) }
        ensures untried { IfSome result (λ fault. (fault ≢ commit.Store) × (fault ≢ commit.Memory)) }
    {
        let expected = self.next_of(task.lane);
        if task.number != expected {
            return Some(CommitFault::OutOfTurn { expected });
        }
        if self.journal.len() >= MOST_TASKS {
            return Some(CommitFault::Full {
                entries: self.journal.len() as u32,
            });
        }
        None
    }

    /// Commits a task whose edits were done on a core that its lane has checked out: a sheet for each leaf of the core is
    /// put, and then its entry. It answers the entry's number, and the core is given back. All memory of the desk's own
    /// is taken before the first put.
    ///
    /// # Errors
    /// `OutOfTurn` where the task isn't its lane's next; `Full` where the journal has 2^20 entries; `Store` where the
    /// store fails; and want of memory. What was done is handed back, the lane holds the core still, and the store has no
    /// entry of it.
    pub fn commit(&mut self, alloc: Global, done: Finished) -> Result<u32, (Finished, CommitFault)>
        requires holds { HoldsJust self.old.holders done.task.lane done.core }
        requires corners { done.core ≡ box_core self.old done.task.low done.task.high }
        requires formed { IsPatchFor self.old.shelf.index.cells done.core done.patch }
        requires rules { KeepsEntryRules (record { number = length self.old.journal; entry = finished_entry done }) }
        ensures answers { CommitAnswers done self.old self.new result }
        ensures index { self.new.shelf.index ≡ self.old.shelf.index }
        ensures capacity { self.new.shelf.capacity ≡ self.old.shelf.capacity }
        ensures changes { TellsAfter (B.store self.old.shelf.blobs) (B.store self.new.shelf.blobs)
            (IsSameBut (length self.old.journal)) }
        ensures puts { PutsCommit (length self.old.journal) (sheets_of self.old.shelf.index.cells done.patch)
            (finished_entry done) (B.store self.old.shelf.blobs) (B.store self.new.shelf.blobs) result }
        ensures later { IsLater (image_of (B.store self.old.shelf.blobs) self.old) (image_of (B.store self.new.shelf.blobs) self.new) }
        ensures counts { CountsPuts (length done.core + 1) (B.store self.old.shelf.blobs) (B.store self.new.shelf.blobs) }
        ensures all { OnOk result (RoseBy (length done.core + 1)
            (B.store self.old.shelf.blobs).puts (B.store self.new.shelf.blobs).puts) }
        ensures cause { TellsFailure CommitFault.Store
            (B.store self.old.shelf.blobs).faults (B.store self.new.shelf.blobs).faults (told_by result) }
        ensures safe { (b : Base) → IsSoundAt (B.store self.old.shelf.blobs) self.old.shelf.index self.old.journal b
            → IsFinished b.index.cells b.index.core (mesh_of b self.old.journal) done.task done.replies done.core done.patch
            → CommitsSafely b self.old.shelf.index (finished_entry done) self.old.journal self.new.journal
            (B.store self.old.shelf.blobs) (B.store self.new.shelf.blobs) result }
        ensures mesh { (b : Base) → IsSoundAt (B.store self.old.shelf.blobs) self.old.shelf.index self.old.journal b
            → IsFinished b.index.cells b.index.core (mesh_of b self.old.journal) done.task done.replies done.core done.patch
            → OnOk result (KeepsMesh (mesh_of b self.old.journal) (mesh_of b self.new.journal)) }
        ensures frame { (b : Base) → IsSoundAt (B.store self.old.shelf.blobs) self.old.shelf.index self.old.journal b
            → IsFinished b.index.cells b.index.core (mesh_of b self.old.journal) done.task done.replies done.core done.patch
            → (other : List ℕ) → AreApart done.core other
            → patch b.index.cells (mesh_of b self.new.journal) other ≡ patch b.index.cells (mesh_of b self.old.journal) other }
    {
        self.commit_done(alloc, done)
    }

    /// Commits what was done, if it is the turn of its task and the journal has room.
    fn commit_done(&mut self, alloc: Global, done: Finished) -> Result<u32, (Finished, CommitFault)>
        requires corners { done.core ≡ box_core self.old done.task.low done.task.high }
        requires formed { IsPatchFor self.old.shelf.index.cells done.core done.patch }
        requires rules { KeepsEntryRules (record { number = length self.old.journal; entry = finished_entry done }) }
        ensures answers { CommitAnswers done self.old self.new result }
        ensures puts { PutsCommit (length self.old.journal) (sheets_of self.old.shelf.index.cells done.patch)
            (finished_entry done) (B.store self.old.shelf.blobs) (B.store self.new.shelf.blobs) result }
        ensures index { self.new.shelf.index ≡ self.old.shelf.index }
        ensures capacity { self.new.shelf.capacity ≡ self.old.shelf.capacity }
        ensures counts { CountsPuts (length done.core + 1) (B.store self.old.shelf.blobs) (B.store self.new.shelf.blobs) }
        ensures all { OnOk result (RoseBy (length done.core + 1)
            (B.store self.old.shelf.blobs).puts (B.store self.new.shelf.blobs).puts) }
        ensures cause { TellsFailure CommitFault.Store
            (B.store self.old.shelf.blobs).faults (B.store self.new.shelf.blobs).faults (told_by result) }
    {
        if let Some(fault) = self.refusal(&done.task) {
            return Err((done, fault));
        }
        let Ok(sheets) = sheets_for(alloc, self.shelf.cells(), &done) else {
            return Err((done, CommitFault::Memory));
        };
        self.commit_sheets(alloc, &sheets, done)
    }

    /// Journals what was done, with the sheets of its core, and gives the core back.
    fn commit_sheets(
        &mut self,
        alloc: Global,
        sheets: &Sheets,
        done: Finished,
    ) -> Result<u32, (Finished, CommitFault)>
        requires may { MayCommit self.old.journal done.task.lane done.task.number }
        requires below { AreBelow (length self.old.shelf.index.cells) done.core }
        requires sheet_rules { All KeepsSheetRules sheets.now }
        requires leaves { map (λ s. s.leaf) sheets.now ≡ done.core }
        requires ascend { IsStrictlyIncreasing done.core }
        requires rules { KeepsEntryRules (record { number = length self.old.journal; entry = finished_entry done }) }
        ensures answers { CommitAnswers done self.old self.new result }
        ensures puts { PutsCommit (length self.old.journal) sheets.now
            (finished_entry done) (B.store self.old.shelf.blobs) (B.store self.new.shelf.blobs) result }
        ensures index { self.new.shelf.index ≡ self.old.shelf.index }
        ensures capacity { self.new.shelf.capacity ≡ self.old.shelf.capacity }
        ensures counts { CountsPuts (length done.core + 1) (B.store self.old.shelf.blobs) (B.store self.new.shelf.blobs) }
        ensures all { OnOk result (RoseBy (length done.core + 1)
            (B.store self.old.shelf.blobs).puts (B.store self.new.shelf.blobs).puts) }
        ensures cause { TellsFailure CommitFault.Store
            (B.store self.old.shelf.blobs).faults (B.store self.new.shelf.blobs).faults (told_by result) }
    {
        let (entry, patch) = parted(done);
        match journal_entry(
            alloc,
            &mut self.shelf,
            &mut self.lanes,
            &mut self.journal,
            sheets.slice(),
            entry,
        ) {
            Ok(number) => {
                self.table.release(&self.journal.at(number as usize).core);
                Ok(number)
            }
            Err((entry, fault)) => Err((joined(entry, patch), fault)),
        }
    }

    /// Commits a task of a box whose core has more leaves than a task may check out: its entry alone is put, and no edit
    /// is done. It answers the entry's number.
    ///
    /// # Errors
    /// `Full` where the journal has 2^20 entries; `Store` where the store fails; and want of memory. The edits are handed
    /// back, and the store has no entry of it.
    pub fn commit_wide(
        &mut self,
        alloc: Global,
        lane: Lane,
        low: Point,
        high: Point,
        edits: Edits,
    ) -> Result<u32, (Edits, CommitFault)>
        requires wide { self.old.shelf.index.core < length (box_core self.old low high) }
        requires rules { KeepsEntryRules (record {
          number = length self.old.journal;
          entry = wide_entry (next_task self.old.journal lane low high edits);
        }) }
        ensures answers { WideAnswers (next_task self.old.journal lane low high edits) self.old self.new result }
        ensures index { self.new.shelf.index ≡ self.old.shelf.index }
        ensures capacity { self.new.shelf.capacity ≡ self.old.shelf.capacity }
        ensures changes { TellsAfter (B.store self.old.shelf.blobs) (B.store self.new.shelf.blobs)
            (IsSameBut (length self.old.journal)) }
        ensures puts { PutsCommit (length self.old.journal) [] (wide_entry (next_task self.old.journal lane low high edits))
            (B.store self.old.shelf.blobs) (B.store self.new.shelf.blobs) result }
        ensures later { IsLater (image_of (B.store self.old.shelf.blobs) self.old) (image_of (B.store self.new.shelf.blobs) self.new) }
        ensures counts { CountsPuts 1 (B.store self.old.shelf.blobs) (B.store self.new.shelf.blobs) }
        ensures all { OnOk result (RoseBy 1
            (B.store self.old.shelf.blobs).puts (B.store self.new.shelf.blobs).puts) }
        ensures cause { TellsFailure CommitFault.Store
            (B.store self.old.shelf.blobs).faults (B.store self.new.shelf.blobs).faults (told_by result) }
        ensures safe { (b : Base) → IsSoundAt (B.store self.old.shelf.blobs) self.old.shelf.index self.old.journal b
            → CommitsSafely b self.old.shelf.index (wide_entry (next_task self.old.journal lane low high edits))
            self.old.journal self.new.journal (B.store self.old.shelf.blobs) (B.store self.new.shelf.blobs) result }
        ensures mesh { (b : Base) → IsSoundAt (B.store self.old.shelf.blobs) self.old.shelf.index self.old.journal b
            → mesh_of b self.new.journal ≡ mesh_of b self.old.journal }
    {
        let task = self.task_of(lane, low, high, edits);
        self.commit_task(alloc, task)
    }

    /// The lane's next task.
    fn task_of(&self, lane: Lane, low: Point, high: Point, edits: Edits) -> Task
        requires { lane ≤ LAST_LANE }
        ensures { result ≡ next_task self.now.journal lane low high edits }
    {
        Task {
            lane,
            number: self.next_of(lane),
            low,
            high,
            edits,
        }
    }

    /// Commits a task with no sheet, if it is its turn and the journal has room.
    fn commit_task(&mut self, alloc: Global, task: Task) -> Result<u32, (Edits, CommitFault)>
        requires rules { KeepsEntryRules (record { number = length self.old.journal; entry = wide_entry task }) }
        ensures answers { WideAnswers task self.old self.new result }
        ensures puts { PutsCommit (length self.old.journal) [] (wide_entry task)
            (B.store self.old.shelf.blobs) (B.store self.new.shelf.blobs) result }
        ensures index { self.new.shelf.index ≡ self.old.shelf.index }
        ensures capacity { self.new.shelf.capacity ≡ self.old.shelf.capacity }
        ensures counts { CountsPuts 1 (B.store self.old.shelf.blobs) (B.store self.new.shelf.blobs) }
        ensures all { OnOk result (RoseBy 1
            (B.store self.old.shelf.blobs).puts (B.store self.new.shelf.blobs).puts) }
        ensures cause { TellsFailure CommitFault.Store
            (B.store self.old.shelf.blobs).faults (B.store self.new.shelf.blobs).faults (told_by result) }
    {
        if let Some(fault) = self.refusal(&task) {
            return Err((task.edits, fault));
        }
        self.journal_task(alloc, task)
    }

    /// Journals a task with no sheet.
    fn journal_task(&mut self, alloc: Global, task: Task) -> Result<u32, (Edits, CommitFault)>
        requires may { MayCommit self.old.journal task.lane task.number }
        requires rules { KeepsEntryRules (record { number = length self.old.journal; entry = wide_entry task }) }
        ensures answers { WideAnswers task self.old self.new result }
        ensures puts { PutsCommit (length self.old.journal) [] (wide_entry task)
            (B.store self.old.shelf.blobs) (B.store self.new.shelf.blobs) result }
        ensures index { self.new.shelf.index ≡ self.old.shelf.index }
        ensures capacity { self.new.shelf.capacity ≡ self.old.shelf.capacity }
        ensures counts { CountsPuts 1 (B.store self.old.shelf.blobs) (B.store self.new.shelf.blobs) }
        ensures all { OnOk result (RoseBy 1
            (B.store self.old.shelf.blobs).puts (B.store self.new.shelf.blobs).puts) }
        ensures cause { TellsFailure CommitFault.Store
            (B.store self.old.shelf.blobs).faults (B.store self.new.shelf.blobs).faults (told_by result) }
    {
        let entry = Entry {
            task,
            wide: true,
            replies: Replies::new(alloc),
            core: LeafSet::new(alloc),
        };
        match journal_entry(
            alloc,
            &mut self.shelf,
            &mut self.lanes,
            &mut self.journal,
            &[],
            entry,
        ) {
            Ok(number) => Ok(number),
            Err((entry, fault)) => Err((entry.task.edits, fault)),
        }
    }
}
