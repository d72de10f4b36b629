//! The sheets of a store.

ghost use Rattle.std.specs.Prelude.{◌≡◌, ◌<◌, ◌≤◌, ◌+◌, ℕ, [], length, slice_index, Some, IfOk, IfErr, OnOk, OnErr, MatchResult};
ghost use Rattle.fault_counts.specs.Counts.{TellsFailure};
ghost use Rattle.oemm_limits.specs.declared.TheConstants.{MOST_TASKS};
ghost use Rattle.oemm_octree.specs.Leaves.{AreBelow, AreTiles};
ghost use Rattle.leaf_codec.specs.Entries.{IsEntrySpelling, KeepsEntryRules};
ghost use Rattle.leaf_codec.specs.Index.{IsIndexSpelling, KeepsIndexRules};
ghost use Rattle.leaf_codec.specs.Sheets.{IsSheetSpelling, KeepsSheetRules};
ghost use Rattle.leaf_codec.specs.declared.formats.TheConstants.{NEWEST};
ghost use Rattle.oemm_blobs.specs.Store.{IfTold, Keeps};
ghost use Rattle.oemm_blobs.specs.declared.keys.Key.TheVariants as key;
ghost use Rattle.sheet_forms.specs.Formed.{IsPatchFor};
ghost use Rattle.oemm_shelf.specs.Cached.{Lists, RoseBy, gets_after, has, lacking, without};
ghost use Rattle.oemm_shelf.specs.Opened.{Finds, found_in};
ghost use Rattle.oemm_shelf.specs.Readings.{Answers, current_patch, current_sheet, leaf_key, sheet_at};
ghost use Rattle.oemm_shelf.specs.Shelves.{AreRaised, IsSame, IsShelf, Puts, Reads};
ghost use Rattle.oemm_shelf.specs.Shown.{IsOpened, IsWithinRim, ShowsFound, ShowsPatch, ShowsSheet, found_by, left_by};

use crate::cores::read_patch;
use crate::fault::{FoundFault, ShelfFault};
use crate::opening::read_store;
use crate::puts::{put_entry, put_value};
use crate::sheets::read_sheet;
use crate::versions::{raise, zeros};
use mesh_data::{Entries, Entry};
use oemm_blobs::{Blobs, Key, StoreFail};
use oemm_octree::{Cells, LeafNo, LeafSet};
use sheet_data::{IndexSheet, LeafSheet, Patch};
use std::alloc::{AllocError, Global};
use std::marker::Model;

/// The sheets of a store: its index, and which version of each leaf is the present one.
///
/// No sheet is kept in memory yet, so each that is asked for is a get of the store.
#[derive(Drop)]
pub struct Shelf<B: Blobs> {
    blobs: B,
    index: IndexSheet,
    versions: Vec<u32>,
    cache: u32,
}

impl<B: Blobs> Model for Shelf<B> {
    ghost use Rattle.std.specs.Prelude.{[]};
    ghost use Rattle.oemm_shelf.specs.Shelves.{IsShelf, ShelfState};

    ghost Value = { ShelfState B };

    ghost view = { λ a. record
        { blobs = a.blobs; index = a.index; versions = a.versions.items; capacity = a.cache; cached = [] } };

    ghost invariant = { λ a. IsShelf a.index a.versions.items };
}

impl<B: Blobs> Shelf<B> {
    /// A shelf over a store with this index, where each leaf has its version 0, and which may keep so many sheets.
    ///
    /// # Errors
    /// Want of memory. The store is handed back.
    pub fn fresh(
        alloc: Global,
        blobs: B,
        index: IndexSheet,
        cache: u32,
    ) -> Result<Shelf<B>, (B, AllocError)>
        requires tiles { AreTiles index.cells }
        requires rules { KeepsIndexRules index }
        ensures { MatchResult result
            (λ shelf. (shelf.blobs ≡ blobs) × (shelf.index ≡ index) × (shelf.capacity ≡ cache) × (shelf.cached ≡ [])
            × (length shelf.versions ≡ length index.cells)
            × ((leaf : ℕ) → slice_index shelf.versions leaf ≡ 0))
            (λ failed. failed.0 ≡ blobs) }
    {
        match zeros(alloc, index.cells.len()) {
            Ok(versions) => Ok(Shelf {
                blobs,
                index,
                versions,
                cache,
            }),
            Err(fault) => Err((blobs, fault)),
        }
    }

    /// A shelf over a store, and the entries of its journal. It reads the index and the entries 0, 1, .. up to the first
    /// that is absent, 2^20 at most, and no sheet. The shelf may keep so many sheets.
    ///
    /// # Errors
    /// `NotBuilt` where there is no index; `Damaged` where the index is none, or an entry is not the next one; `Store`
    /// where the store fails; and want of memory. The store is handed back.
    pub fn open(
        alloc: Global,
        mut blobs: B,
        cache: u32,
    ) -> Result<(Shelf<B>, Entries), (B, FoundFault)>
        ensures told { IfTold (B.store blobs).content (λ m. Finds (found_by result) (found_in m)) }
        ensures shows { IfErr result (λ failed. ShowsFound failed.1) }
        ensures opened { IfOk result (λ opened. IsOpened opened.0 opened.1 cache) }
        ensures keeps { Keeps (B.store blobs) (B.store (left_by result)) }
        ensures kept_gets { (B.store blobs).gets ≤ (B.store (left_by result)).gets }
        ensures gets { IfOk result
            (λ opened. (B.store (left_by result)).gets ≤ (B.store blobs).gets + (length opened.1 + 2)) }
        ensures puts { (B.store (left_by result)).puts ≡ (B.store blobs).puts }
        ensures cause { TellsFailure (FoundFault.Shelf ShelfFault.Store)
            (B.store blobs).faults (B.store (left_by result)).faults (found_by result) }
    {
        match read_store(alloc, &mut blobs) {
            Ok((index, versions, entries)) => Ok((
                Shelf {
                    blobs,
                    index,
                    versions,
                    cache,
                },
                entries,
            )),
            Err(fault) => Err((blobs, fault)),
        }
    }

    /// The present sheet of a leaf.
    ///
    /// # Errors
    /// `Absent` where nothing stands under the leaf's present key, `Damaged` where what stands there is no sheet of the
    /// leaf; `Store` where the store fails; and want of memory.
    pub fn sheet(&mut self, alloc: Global, leaf: LeafNo) -> Result<LeafSheet, ShelfFault>
        requires { leaf < length self.old.index.cells }
        ensures told { IfTold (B.store self.old.blobs).content
            (λ m. Answers result (current_sheet self.old.index self.old.versions m leaf)) }
        ensures shows { ShowsSheet self.old.index leaf (leaf_key self.old.versions leaf) result }
        ensures rules { IfOk result KeepsSheetRules }
        ensures same { IsSame self.old self.new }
        ensures reads { Reads 1 (B.store self.old.blobs) (B.store self.new.blobs) }
        ensures once { OnOk result ((B.store self.new.blobs).gets
            ≡ gets_after (has self.old.cached leaf (slice_index self.old.versions leaf)) (B.store self.old.blobs).gets) }
        ensures lists { Lists (λ l v. (l ≡ leaf) × (v ≡ slice_index self.old.versions leaf))
            self.old.cached self.new.cached (B.store self.old.blobs).gets (B.store self.new.blobs).gets }
        ensures few { length self.new.cached ≤ self.new.capacity }
        ensures cause { TellsFailure ShelfFault.Store
            (B.store self.old.blobs).faults (B.store self.new.blobs).faults result }
    {
        let version = self.versions[leaf.0 as usize];
        read_sheet(alloc, &mut self.blobs, &self.index, leaf, version)
    }

    /// The sheet of a leaf in its version 0, which is that of the mesh from which the store was built.
    ///
    /// # Errors
    /// As `sheet`, with the key of version 0.
    pub fn base(&mut self, alloc: Global, leaf: LeafNo) -> Result<LeafSheet, ShelfFault>
        requires { leaf < length self.old.index.cells }
        ensures told { IfTold (B.store self.old.blobs).content
            (λ m. Answers result (sheet_at self.old.index m leaf 0)) }
        ensures shows { ShowsSheet self.old.index leaf (key.Leaf leaf 0) result }
        ensures rules { IfOk result KeepsSheetRules }
        ensures same { IsSame self.old self.new }
        ensures reads { Reads 1 (B.store self.old.blobs) (B.store self.new.blobs) }
        ensures once { OnOk result ((B.store self.new.blobs).gets
            ≡ gets_after (has self.old.cached leaf 0) (B.store self.old.blobs).gets) }
        ensures lists { Lists (λ l v. (l ≡ leaf) × (v ≡ 0))
            self.old.cached self.new.cached (B.store self.old.blobs).gets (B.store self.new.blobs).gets }
        ensures few { length self.new.cached ≤ self.new.capacity }
        ensures cause { TellsFailure ShelfFault.Store
            (B.store self.old.blobs).faults (B.store self.new.blobs).faults result }
    {
        read_sheet(alloc, &mut self.blobs, &self.index, leaf, 0)
    }

    /// The patch of a core: its vertices, and all triangles with a vertex of it. The sheets of the core and of the leaves
    /// round it are read, each once, and no others. It takes time of about n log n for n vertices, faces and near leaves
    /// in these sheets.
    ///
    /// # Errors
    /// `Absent` or `Damaged` with the key of the first leaf of which it holds, those of the core before those round it;
    /// `Clash` where the sheets are not of one mesh; `Store` where the store fails; and want of memory.
    pub fn patch(&mut self, alloc: Global, core: &LeafSet) -> Result<Patch, ShelfFault>
        requires { AreBelow (length self.old.index.cells) core.now }
        ensures told { IfTold (B.store self.old.blobs).content
            (λ m. Answers result (current_patch self.old.index self.old.versions m core.now)) }
        ensures formed { IfOk result (IsPatchFor self.old.index.cells core.now) }
        ensures shows { ShowsPatch self.old.index self.old.versions core.now
            (B.store self.old.blobs).gets (B.store self.new.blobs).gets result }
        ensures same { IsSame self.old self.new }
        ensures keeps { Keeps (B.store self.old.blobs) (B.store self.new.blobs) }
        ensures kept_gets { (B.store self.old.blobs).gets ≤ (B.store self.new.blobs).gets }
        ensures puts { (B.store self.new.blobs).puts ≡ (B.store self.old.blobs).puts }
        ensures rim { IsWithinRim self.old.index self.old.versions core.now (B.store self.old.blobs).content
            (B.store self.old.blobs).gets (B.store self.new.blobs).gets self.old.cached self.new.cached }
        ensures each { OnOk result (RoseBy (lacking self.old.cached self.old.versions core.now)
            (B.store self.old.blobs).gets (B.store self.new.blobs).gets) }
        ensures few { length self.new.cached ≤ self.new.capacity }
        ensures cause { TellsFailure ShelfFault.Store
            (B.store self.old.blobs).faults (B.store self.new.blobs).faults result }
    {
        read_patch(
            alloc,
            &mut self.blobs,
            &self.index,
            self.versions.as_slice(),
            core,
        )
    }

    /// Puts a sheet under its leaf and this version.
    ///
    /// # Errors
    /// `Failed` where the store fails, and `Memory`.
    pub fn put_sheet(
        &mut self,
        alloc: Global,
        version: u32,
        sheet: &LeafSheet,
    ) -> Result<(), StoreFail>
        requires { KeepsSheetRules sheet.now }
        ensures puts { Puts (key.Leaf sheet.now.leaf version) (λ bytes. IsSheetSpelling NEWEST bytes sheet.now)
            (B.store self.old.blobs) (B.store self.new.blobs) result }
        ensures same { IsSame self.old self.new }
        ensures cached { self.new.cached ≡ without sheet.now.leaf version self.old.cached }
        ensures cause { TellsFailure StoreFail.Failed
            (B.store self.old.blobs).faults (B.store self.new.blobs).faults result }
    {
        let key = Key::Leaf {
            leaf: sheet.leaf,
            version,
        };
        put_value(alloc, &mut self.blobs, key, sheet)
    }

    /// Puts an entry of the journal under its number. The leaves of its core then have the version behind it.
    ///
    /// # Errors
    /// `Failed` where the store fails, and `Memory`. All versions are then as they were.
    pub fn put_entry(&mut self, alloc: Global, number: u32, entry: &Entry) -> Result<(), StoreFail>
        requires number { number < MOST_TASKS }
        requires rules { KeepsEntryRules (record { number = number; entry = entry.now }) }
        requires core { AreBelow (length self.old.index.cells) entry.now.core }
        ensures puts { Puts (key.Entry number)
            (λ bytes. IsEntrySpelling NEWEST bytes (record { number = number; entry = entry.now }))
            (B.store self.old.blobs) (B.store self.new.blobs) result }
        ensures index { self.new.index ≡ self.old.index }
        ensures capacity { self.new.capacity ≡ self.old.capacity }
        ensures raised { OnOk result (AreRaised entry.now.core number self.old.versions self.new.versions) }
        ensures kept { OnErr result (self.new.versions ≡ self.old.versions) }
        ensures cached { self.new.cached ≡ self.old.cached }
        ensures cause { TellsFailure StoreFail.Failed
            (B.store self.old.blobs).faults (B.store self.new.blobs).faults result }
    {
        put_entry(alloc, &mut self.blobs, number, entry)?;
        raise(&mut self.versions, &entry.core, number);
        Ok(())
    }

    /// Puts the index.
    ///
    /// # Errors
    /// `Failed` where the store fails, and `Memory`.
    pub fn put_index(&mut self, alloc: Global) -> Result<(), StoreFail>
        ensures puts { Puts key.Index (λ bytes. IsIndexSpelling NEWEST bytes self.old.index)
            (B.store self.old.blobs) (B.store self.new.blobs) result }
        ensures same { IsSame self.old self.new }
        ensures cached { self.new.cached ≡ self.old.cached }
        ensures cause { TellsFailure StoreFail.Failed
            (B.store self.old.blobs).faults (B.store self.new.blobs).faults result }
    {
        put_value(alloc, &mut self.blobs, Key::Index, &self.index)
    }

    /// The cells of the leaves.
    pub fn cells(&self) -> &Cells
        ensures cells { result.now ≡ self.now.index.cells }
        ensures tiles { AreTiles result.now }
    {
        &self.index.cells
    }

    /// The index.
    pub fn index(&self) -> &IndexSheet
        ensures index { result.now ≡ self.now.index }
        ensures shelf { IsShelf self.now.index self.now.versions }
    {
        &self.index
    }

    /// The present version of a leaf.
    pub fn version(&self, leaf: LeafNo) -> u32
        requires { leaf < length self.now.index.cells }
        ensures { result ≡ slice_index self.now.versions leaf }
    {
        self.versions[leaf.0 as usize]
    }

    /// The store.
    pub fn into_blobs(self) -> B
        ensures { result ≡ self.blobs }
    {
        let Shelf {
            blobs,
            index: _,
            versions: _,
            cache: _,
        } = self;
        blobs
    }
}
