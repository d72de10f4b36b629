//! A store in a folder, which tells nothing of its content.

ghost use Rattle.std.specs.Prelude.{◌≡◌, Some, None};
ghost use Rattle.std.specs.String.{string_bytes};
ghost use Rattle.fault_counts.specs.Counts.{TellsFailure};
ghost use Rattle.oemm_blobs.specs.Folder.{folder_store};
ghost use Rattle.oemm_blobs.specs.Store.{Elapses, Changes, Keeps, CountsOne};

use crate::blobs::{Blobs, StoreFail};
use crate::keys::Key;
use crate::names::{new_path, path};
use crate::system::{counted, read_blob, remove_blob, write_blob};
use oemm_lists::Bytes;
use std::alloc::Global;
use std::marker::Model;
use std::rt::Files;

/// A store in a folder, with a file for each key that has bytes.
///
/// A put writes a second file and renames it, and makes the folder where it isn't there. Only one store may write
/// to a folder at a time.
#[derive(Drop)]
pub struct FolderBlobs<R: Files> {
    rt: R,
    folder: String,
    faults: u64,
    gets: u64,
    puts: u64,
}

impl<R: Files> Model for FolderBlobs<R> {
    ghost use Rattle.std.specs.String.{string_bytes};
    ghost use Rattle.oemm_blobs.specs.Folder.{Folder};

    ghost Value = { Folder };

    ghost view = { λ a. record {
      path = string_bytes a.folder;
      faults = a.faults;
      gets = a.gets;
      puts = a.puts;
    } };
}

impl<R: Files> FolderBlobs<R> {
    /// The store in the folder at this path. It makes no call of the system.
    pub fn new(rt: R, folder: String) -> FolderBlobs<R>
        ensures { result ≡ record { path = string_bytes folder; faults = 0; gets = 0; puts = 0 } }
    {
        FolderBlobs {
            rt,
            folder,
            faults: 0,
            gets: 0,
            puts: 0,
        }
    }

    fn put_file(&self, alloc: Global, key: Key, bytes: &[u8]) -> Result<(), StoreFail> {
        let path = path(alloc, &self.folder, &key)?;
        let new_path = new_path(alloc, &self.folder, &key)?;
        write_blob(&self.rt, &self.folder, &path, &new_path, bytes)
    }

    fn get_file(&self, alloc: Global, key: Key) -> Result<Option<Bytes>, StoreFail> {
        let path = path(alloc, &self.folder, &key)?;
        read_blob(&self.rt, alloc, &path)
    }

    fn erase_file(&self, alloc: Global, key: Key) -> Result<(), StoreFail> {
        let path = path(alloc, &self.folder, &key)?;
        remove_blob(&self.rt, &path)
    }
}

impl<R: Files> Blobs for FolderBlobs<R> {
    ghost use Rattle.oemm_blobs.specs.Folder.{folder_store};

    ghost store = { folder_store };

    #[tactic(auto, using(crate::proofs::Silent::silent_changes, crate::proofs::Silent::silent_time))]
    fn put(&mut self, alloc: Global, key: Key, bytes: &[u8]) -> Result<(), StoreFail>
        ensures path { self.new.path ≡ self.old.path }
        ensures changes { Changes (record { key = key; bytes = Some bytes.now })
            (folder_store self.old) (folder_store self.new) result }
        ensures time { Elapses (folder_store self.old) (folder_store self.new) }
        ensures gets { self.new.gets ≡ self.old.gets }
        ensures puts { CountsOne self.old.puts self.new.puts }
        ensures cause { TellsFailure StoreFail.Failed self.old.faults self.new.faults result }
    {
        self.puts = self.puts.saturating_add(1);
        let answer = self.put_file(alloc, key, bytes);
        counted(answer, &mut self.faults)
    }

    #[tactic(auto, using(crate::proofs::Silent::silent_keeps, crate::proofs::Silent::silent_time))]
    fn get(&mut self, alloc: Global, key: Key) -> Result<Option<Bytes>, StoreFail>
        ensures path { self.new.path ≡ self.old.path }
        ensures keeps { Keeps (folder_store self.old) (folder_store self.new) }
        ensures time { Elapses (folder_store self.old) (folder_store self.new) }
        ensures gets { CountsOne self.old.gets self.new.gets }
        ensures puts { self.new.puts ≡ self.old.puts }
        ensures cause { TellsFailure StoreFail.Failed self.old.faults self.new.faults result }
    {
        self.gets = self.gets.saturating_add(1);
        let answer = self.get_file(alloc, key);
        counted(answer, &mut self.faults)
    }

    #[tactic(auto, using(crate::proofs::Silent::silent_changes, crate::proofs::Silent::silent_time))]
    fn erase(&mut self, alloc: Global, key: Key) -> Result<(), StoreFail>
        ensures path { self.new.path ≡ self.old.path }
        ensures changes { Changes (record { key = key; bytes = None })
            (folder_store self.old) (folder_store self.new) result }
        ensures time { Elapses (folder_store self.old) (folder_store self.new) }
        ensures gets { self.new.gets ≡ self.old.gets }
        ensures puts { self.new.puts ≡ self.old.puts }
        ensures cause { TellsFailure StoreFail.Failed self.old.faults self.new.faults result }
    {
        let answer = self.erase_file(alloc, key);
        counted(answer, &mut self.faults)
    }
}
