//! Bytes under keys, in memory.

ghost use Rattle.std.specs.Prelude.{◌≡◌, Some, None, IfOk, OnOk, OnErr};
ghost use Rattle.std.specs.Option.{option_copied};
ghost use Rattle.oemm_blobs.specs.Content.{blob_at, no_content, with_blob, with_change};

use crate::keys::{Change, Key};
use oemm_lists::{Bytes, Copied};
use std::alloc::{AllocError, Global};
use std::collections::BTreeMap;
use std::marker::Model;

/// Bytes under keys.
#[derive(Drop)]
pub struct BlobMap {
    blobs: BTreeMap<Key, Bytes>,
}

impl Model for BlobMap {
    ghost use Rattle.std.specs.FinMap as finite;
    ghost use Rattle.oemm_blobs.specs.Content.{Content, content_code};

    ghost Value = { Content };

    ghost coded = { content_code };

    ghost view = { λ a. finite.from_entries a.blobs.entries };
}

impl BlobMap {
    /// No bytes under any key. It takes no memory.
    pub fn new(alloc: Global) -> BlobMap
        ensures { result ≡ no_content }
    {
        BlobMap {
            blobs: BTreeMap::new(alloc),
        }
    }

    /// The bytes under the key, if there are some.
    pub fn at(&self, key: Key) -> Option<&Bytes>
        ensures { option_copied result ≡ blob_at self.now key }
    {
        self.blobs.get(&key)
    }

    /// A copy of the bytes under the key, if there are some.
    ///
    /// # Errors
    /// Want of memory.
    pub fn get(&self, alloc: Global, key: Key) -> Result<Option<Bytes>, AllocError>
        ensures { IfOk result (λ found. found ≡ blob_at self.now key) }
    {
        match self.at(key) {
            Some(bytes) => Ok(Some(bytes.copy(alloc)?)),
            None => Ok(None),
        }
    }

    /// Puts the bytes under the key, in place of those that stand there.
    ///
    /// # Errors
    /// Want of memory. Then it is unchanged.
    pub fn put(&mut self, key: Key, bytes: Bytes) -> Result<(), AllocError>
        ensures ok { OnOk result (self.new ≡ with_blob key (Some bytes) self.old) }
        ensures err { OnErr result (self.new ≡ self.old) }
    {
        self.blobs.insert(key, bytes)?;
        Ok(())
    }

    /// Takes away the bytes under the key, if there are some.
    pub fn erase(&mut self, key: Key)
        ensures { self.new ≡ with_blob key None self.old }
    {
        self.blobs.remove(&key);
    }

    /// Makes the change.
    ///
    /// # Errors
    /// Want of memory. Then it is unchanged.
    pub fn make(&mut self, alloc: Global, change: &Change) -> Result<(), AllocError>
        ensures ok { OnOk result (self.new ≡ with_change change.now self.old) }
        ensures err { OnErr result (self.new ≡ self.old) }
    {
        match &change.bytes {
            Some(bytes) => self.put(change.key, bytes.copy(alloc)?),
            None => {
                self.erase(change.key);
                Ok(())
            }
        }
    }
}
