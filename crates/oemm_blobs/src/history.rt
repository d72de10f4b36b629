//! A store in memory that tells what a crash at each moment leaves, for tests.

ghost use Rattle.std.specs.Prelude.{◌≡◌, ◌≤◌, [], ◌∷◌, ◌++◌, length, Some, None, IfOk, OnOk, OnErr};
ghost use Rattle.fault_counts.specs.Counts.{TellsFailure};
ghost use Rattle.oemm_blobs.specs.Content.{blob_at, no_content, changed};
ghost use Rattle.oemm_blobs.specs.History.{content_at, history_store};
ghost use Rattle.oemm_blobs.specs.Store.{Elapses, Changes, CountsOne};

use crate::blob_map::BlobMap;
use crate::blobs::{Blobs, StoreFail};
use crate::keys::{Change, Key};
use oemm_lists::{Bytes, List};
use std::alloc::{AllocError, Global};
use std::marker::Model;

/// A store in memory that keeps each change that was ever made, and so what a crash after each of them leaves.
///
/// It never fails. A get makes the content anew from all changes.
#[derive(Drop)]
pub struct HistoryBlobs {
    changes: Vec<Change>,
    gets: u64,
    puts: u64,
}

impl Model for HistoryBlobs {
    ghost use Rattle.oemm_blobs.specs.History.{History};

    ghost Value = { History };

    ghost view = { λ a. record { changes = a.changes.items; gets = a.gets; puts = a.puts } };
}

impl HistoryBlobs {
    /// An empty store. It takes no memory.
    pub fn new(alloc: Global) -> HistoryBlobs
        ensures { result ≡ record { changes = []; gets = 0; puts = 0 } }
    {
        HistoryBlobs {
            changes: Vec::new(alloc),
            gets: 0,
            puts: 0,
        }
    }

    /// How many changes were made: a crash may have come at any moment from 0, before the first, to this one.
    pub fn moments(&self) -> usize
        ensures { result ≡ length self.now.changes }
    {
        self.changes.len()
    }

    /// The bytes under the key where a crash came after so many of the changes.
    ///
    /// # Errors
    /// Want of memory.
    pub fn left_at(
        &self,
        alloc: Global,
        moment: usize,
        key: Key,
    ) -> Result<Option<Bytes>, AllocError>
        requires { moment ≤ length self.now.changes }
        ensures { IfOk result (λ found. found ≡ blob_at (content_at self.now.changes moment) key) }
    {
        let content = content_after(alloc, &self.changes[..moment])?;
        content.get(alloc, key)
    }
}

/// The content after these changes.
fn content_after(alloc: Global, changes: &[Change]) -> Result<BlobMap, AllocError>
    ensures { IfOk result (λ content. content ≡ changed changes.now no_content) }
{
    let mut content = BlobMap::new(alloc);
    for change in changes {
        content.make(alloc, change)?;
    }
    Ok(content)
}

impl Blobs for HistoryBlobs {
    ghost use Rattle.oemm_blobs.specs.History.{history_store};

    ghost store = { history_store };

    fn put(&mut self, alloc: Global, key: Key, bytes: &[u8]) -> Result<(), StoreFail>
        ensures changes { Changes (record { key = key; bytes = Some bytes.now })
            (history_store self.old) (history_store self.new) result }
        ensures time { Elapses (history_store self.old) (history_store self.new) }
        ensures gets { self.new.gets ≡ self.old.gets }
        ensures puts { CountsOne self.old.puts self.new.puts }
        ensures cause { TellsFailure StoreFail.Failed 0 0 result }
        ensures made { OnOk result (self.new.changes
            ≡ self.old.changes ++ record { key = key; bytes = Some bytes.now } ∷ []) }
        ensures refused { OnErr result (self.new.changes ≡ self.old.changes) }
    {
        self.puts = self.puts.saturating_add(1);
        let copy = Vec::from_slice(alloc, bytes)?;
        self.changes.push(Change {
            key,
            bytes: Some(List::from_vec(copy)),
        })?;
        Ok(())
    }

    fn get(&mut self, alloc: Global, key: Key) -> Result<Option<Bytes>, StoreFail> {
        self.gets = self.gets.saturating_add(1);
        let content = content_after(alloc, &self.changes)?;
        Ok(content.get(alloc, key)?)
    }

    fn erase(&mut self, alloc: Global, key: Key) -> Result<(), StoreFail>
        ensures changes { Changes (record { key = key; bytes = None })
            (history_store self.old) (history_store self.new) result }
        ensures time { Elapses (history_store self.old) (history_store self.new) }
        ensures gets { self.new.gets ≡ self.old.gets }
        ensures puts { self.new.puts ≡ self.old.puts }
        ensures cause { TellsFailure StoreFail.Failed 0 0 result }
        ensures made { OnOk result (self.new.changes ≡ self.old.changes ++ record { key = key; bytes = None } ∷ []) }
        ensures refused { OnErr result (self.new.changes ≡ self.old.changes) }
    {
        self.changes.push(Change { key, bytes: None })?;
        Ok(())
    }
}
