//! The entries of a store's journal.

ghost use Rattle.std.specs.Prelude.{◌≡◌, ◌+◌, ◌<◌, ◌≤◌, ◌++◌, ◌∷◌, ◌==◌, ◌&&◌, nat_lt, List, [], length, slice_index, IfOk, IfErr, IfSome, OnOk};
ghost use Rattle.std.specs.List.{list_all};
ghost use Rattle.fault_counts.specs.Counts.{TellsFailure};
ghost use Rattle.oemm_limits.specs.declared.TheConstants.{LAST_LANE};
ghost use Rattle.mesh_data.specs.declared.edits.Entry.{Entry};
ghost use Rattle.oemm_blobs.specs.Content.{blob_at};
ghost use Rattle.oemm_blobs.specs.Store.{IfTold, Keeps};
ghost use Rattle.oemm_blobs.specs.declared.keys.Key.TheVariants as key;
ghost use Rattle.oemm_shelf.specs.Opened.{entries_from, entry_answer, entry_in};
ghost use Rattle.oemm_shelf.specs.Readings.{Answers};
ghost use Rattle.oemm_shelf.specs.Shelves.{Reads};
ghost use Rattle.oemm_shelf.specs.Shown.{AreEntries, CountLanes, IsNext, ShowsEntry};

use crate::fault::ShelfFault;
use crate::sheets::{are_below, get_bytes, or_damaged};
use crate::versions::zeros;
use leaf_codec::{Blob, CodecFault};
use mesh_data::{Entries, Entry};
use oemm_blobs::{Blobs, Key};
use oemm_limits::MOST_TASKS;
use sheet_data::{IndexSheet, NumberedEntry};
use std::alloc::{AllocError, Global};

/// The number of lanes.
const LANES: usize = 64;

/// Whether an entry that was decoded stands behind so many others, of which so many are of each lane.
fn is_next(cells: usize, number: usize, lanes: &[u32], n: &NumberedEntry) -> bool
    requires { n.now.entry.task.lane < length lanes.now }
    ensures { result ≡ ((n.now.number == number)
        && ((n.now.entry.task.number == slice_index lanes.now n.now.entry.task.lane)
        && list_all (λ l. nat_lt l cells) n.now.entry.core)) }
{
    n.number as usize == number
        && n.entry.task.number == lanes[n.entry.task.lane.0 as usize]
        && are_below(cells, n.entry.core.slice())
}

/// The entry behind these that the bytes are, if they are one.
///
/// # Errors
/// Want of memory.
fn entry_from(
    alloc: Global,
    index: &IndexSheet,
    lanes: &[u32],
    before: &[Entry],
    bytes: &[u8],
) -> Result<Option<NumberedEntry>, AllocError>
    requires { CountLanes lanes.now before.now }
    ensures is { IfOk result (λ found. found ≡ entry_in index.now before.now bytes.now) }
    ensures lane { IfOk result (λ found. IfSome found (λ n. n.entry.task.lane ≤ LAST_LANE)) }
{
    match NumberedEntry::decode(alloc, bytes) {
        Ok(n) => {
            if is_next(index.cells.len(), before.len(), lanes, &n) {
                Ok(Some(n))
            } else {
                Ok(None)
            }
        }
        Err(CodecFault::Bad { .. }) => Ok(None),
        Err(CodecFault::Memory) => Err(AllocError),
    }
}

/// The key of an entry.
fn entry_key(number: usize) -> Key
    requires { number < MOST_TASKS }
    ensures { result ≡ key.Entry number }
{
    Key::Entry(number as u32)
}

/// The entry behind these, or None where there is none.
///
/// # Errors
/// `Store` where the store fails, `Damaged` where what stands under its key is not the next entry; and want of memory.
fn read_entry<B: Blobs>(
    alloc: Global,
    blobs: &mut B,
    index: &IndexSheet,
    lanes: &[u32],
    before: &[Entry],
) -> Result<Option<NumberedEntry>, ShelfFault>
    requires counted { CountLanes lanes.now before.now }
    requires room { length before.now < MOST_TASKS }
    ensures told { IfTold (B.store blobs.old).content
        (λ m. Answers result (entry_answer index.now before.now (blob_at m (key.Entry (length before.now))))) }
    ensures next { IfOk result (λ found. IfSome found (IsNext index.now before.now)) }
    ensures shows { IfErr result (ShowsEntry index.now before.now) }
    ensures reads { Reads 1 (B.store blobs.old) (B.store blobs.new) }
    ensures cause { TellsFailure ShelfFault.Store (B.store blobs.old).faults (B.store blobs.new).faults result }
{
    let Some(bytes) = get_bytes(alloc, blobs, entry_key(before.len()))? else {
        return Ok(None);
    };
    let found = entry_from(alloc, index, lanes, before, bytes.slice())?;
    let n = or_damaged(entry_key(before.len()), bytes, found)?;
    Ok(Some(n))
}

/// Puts an entry behind others, and counts it for its lane.
fn add_entry(lanes: &mut [u32], entries: &mut Vec<Entry>, entry: Entry) -> Result<(), AllocError>
    requires counted { CountLanes lanes.old entries.old.items }
    requires lane { entry.task.lane ≤ LAST_LANE }
    requires room { length entries.old.items < MOST_TASKS }
    ensures entries { OnOk result (entries.new.items ≡ entries.old.items ++ entry ∷ []) }
    ensures counted { OnOk result (CountLanes lanes.new entries.new.items) }
{
    let lane = entry.task.lane.0 as usize;
    entries.push(entry)?;
    lanes[lane] += 1;
    Ok(())
}

/// The entries 0, 1, .. up to the first that is absent, and at most so many.
fn read_most<B: Blobs>(
    alloc: Global,
    blobs: &mut B,
    index: &IndexSheet,
    most: usize,
) -> Result<Entries, ShelfFault>
    requires { most ≤ MOST_TASKS }
    ensures told { IfTold (B.store blobs.old).content
        (λ m. Answers result (entries_from index.now most [] m)) }
    ensures entries { IfOk result (AreEntries index.now) }
    ensures shows { IfErr result (λ why. (before : List Entry) × AreEntries index.now before
        × ShowsEntry index.now before why) }
    ensures keeps { Keeps (B.store blobs.old) (B.store blobs.new) }
    ensures kept_gets { (B.store blobs.old).gets ≤ (B.store blobs.new).gets }
    ensures gets { IfOk result
        (λ entries. (B.store blobs.new).gets ≤ (B.store blobs.old).gets + (length entries + 1)) }
    ensures puts { (B.store blobs.new).puts ≡ (B.store blobs.old).puts }
    ensures cause { TellsFailure ShelfFault.Store (B.store blobs.old).faults (B.store blobs.new).faults result }
{
    let mut lanes = zeros(alloc, LANES)?;
    let mut entries = Vec::new(alloc);
    for turn in 0..most {
        match read_entry(alloc, blobs, index, lanes.as_slice(), entries.as_slice())? {
            Some(n) => add_entry(lanes.as_mut_slice(), &mut entries, n.entry)?,
            None => return Ok(Entries::from_vec(entries)),
        }
    }
    Ok(Entries::from_vec(entries))
}

/// The entries of a store's journal, 2^20 at most.
pub fn read_entries<B: Blobs>(
    alloc: Global,
    blobs: &mut B,
    index: &IndexSheet,
) -> Result<Entries, ShelfFault>
    ensures told { IfTold (B.store blobs.old).content
        (λ m. Answers result (entries_from index.now MOST_TASKS [] m)) }
    ensures entries { IfOk result (AreEntries index.now) }
    ensures shows { IfErr result (λ why. (before : List Entry) × AreEntries index.now before
        × ShowsEntry index.now before why) }
    ensures keeps { Keeps (B.store blobs.old) (B.store blobs.new) }
    ensures kept_gets { (B.store blobs.old).gets ≤ (B.store blobs.new).gets }
    ensures gets { IfOk result
        (λ entries. (B.store blobs.new).gets ≤ (B.store blobs.old).gets + (length entries + 1)) }
    ensures puts { (B.store blobs.new).puts ≡ (B.store blobs.old).puts }
    ensures cause { TellsFailure ShelfFault.Store (B.store blobs.old).faults (B.store blobs.new).faults result }
{
    read_most(alloc, blobs, index, MOST_TASKS)
}
