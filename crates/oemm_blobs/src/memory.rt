//! A store in memory, which tells its content and fails at the calls that it is told.

ghost use Rattle.std.specs.Prelude.{◌≡◌, ◌≤◌, ◌↔◌, Some, None, IfOk, OnOk, IsErrOf, IsTrue};
ghost use Rattle.fault_counts.specs.Counts.{TellsFailure};
ghost use Rattle.oemm_blobs.specs.Content.{blob_at};
ghost use Rattle.oemm_blobs.specs.Store.{Elapses, Changes, Keeps, IfTold, CountsOne};
ghost use Rattle.oemm_blobs.specs.Memory.{armed_with, fails_next, new_memory, memory_store};
ghost use Rattle.oemm_blobs.specs.Memory.{after_fault, after_put, after_get, after_erase, with_bytes};

use crate::armed::Armed;
use crate::blob_map::BlobMap;
use crate::blobs::{Blobs, StoreFail};
use crate::keys::Key;
use oemm_lists::{Bytes, List};
use std::alloc::Global;
use std::marker::Model;

/// A store in memory.
#[derive(Drop)]
pub struct MemBlobs {
    blobs: BlobMap,
    faults: u64,
    gets: u64,
    puts: u64,
    failing_gets: Armed,
    failing_puts: Armed,
    failing_erases: Armed,
}

impl Model for MemBlobs {
    ghost use Rattle.oemm_blobs.specs.Memory.{Memory, memory_code};

    ghost Value = { Memory };

    ghost coded = { memory_code };

    ghost view = { λ a. record {
      content = a.blobs;
      faults = a.faults;
      gets = a.gets;
      puts = a.puts;
      failing_gets = a.failing_gets;
      failing_puts = a.failing_puts;
      failing_erases = a.failing_erases;
    } };
}

impl MemBlobs {
    /// An empty store, of which no call fails. It takes no memory.
    pub fn new(alloc: Global) -> MemBlobs
        ensures { result ≡ new_memory }
    {
        MemBlobs {
            blobs: BlobMap::new(alloc),
            faults: 0,
            gets: 0,
            puts: 0,
            failing_gets: Armed::with(Vec::new(alloc)),
            failing_puts: Armed::with(Vec::new(alloc)),
            failing_erases: Armed::with(Vec::new(alloc)),
        }
    }

    /// Lets the later gets, puts and erases of these numbers fail, and no others.
    ///
    /// Each kind is counted from 1 from now on. What was armed before is forgotten.
    pub fn arm(&mut self, gets: Vec<u64>, puts: Vec<u64>, erases: Vec<u64>)
        ensures { self.new ≡ record self.old {
          failing_gets = armed_with gets.items;
          failing_puts = armed_with puts.items;
          failing_erases = armed_with erases.items;
        } }
    {
        self.failing_gets = Armed::with(gets);
        self.failing_puts = Armed::with(puts);
        self.failing_erases = Armed::with(erases);
    }

    /// Counts a fault.
    fn fault(&mut self) -> StoreFail
        ensures failed { result ≡ StoreFail.Failed }
        ensures after { self.new ≡ after_fault self.old }
        ensures kept { self.old.faults ≤ self.new.faults }
    {
        self.faults = self.faults.saturating_add(1);
        StoreFail::Failed
    }
}

impl Blobs for MemBlobs {
    ghost use Rattle.oemm_blobs.specs.Memory.{memory_store};

    ghost store = { memory_store };

    fn put(&mut self, alloc: Global, key: Key, bytes: &[u8]) -> Result<(), StoreFail>
        ensures changes { Changes (record { key = key; bytes = Some bytes.now })
            (memory_store self.old) (memory_store self.new) result }
        ensures time { Elapses (memory_store self.old) (memory_store self.new) }
        ensures gets { self.new.gets ≡ self.old.gets }
        ensures puts { CountsOne self.old.puts self.new.puts }
        ensures cause { TellsFailure StoreFail.Failed self.old.faults self.new.faults result }
        ensures fails { IsErrOf result StoreFail.Failed ↔ IsTrue (fails_next self.old.failing_puts) }
        ensures ok { OnOk result (self.new ≡ with_bytes key (Some bytes.now) (after_put self.old)) }
        ensures failed { IsErrOf result StoreFail.Failed → self.new ≡ after_fault (after_put self.old) }
        ensures memory { IsErrOf result StoreFail.Memory → self.new ≡ after_put self.old }
    {
        self.puts = self.puts.saturating_add(1);
        if self.failing_puts.fails() {
            return Err(self.fault());
        }
        let copy = Vec::from_slice(alloc, bytes)?;
        self.blobs.put(key, List::from_vec(copy))?;
        Ok(())
    }

    fn get(&mut self, alloc: Global, key: Key) -> Result<Option<Bytes>, StoreFail>
        ensures gives { IfOk result (λ found. IfTold (memory_store self.old).content (λ m. found ≡ blob_at m key)) }
        ensures keeps { Keeps (memory_store self.old) (memory_store self.new) }
        ensures time { Elapses (memory_store self.old) (memory_store self.new) }
        ensures gets { CountsOne self.old.gets self.new.gets }
        ensures puts { self.new.puts ≡ self.old.puts }
        ensures cause { TellsFailure StoreFail.Failed self.old.faults self.new.faults result }
        ensures fails { IsErrOf result StoreFail.Failed ↔ IsTrue (fails_next self.old.failing_gets) }
        ensures found { IfOk result (λ found. found ≡ blob_at self.old.content key) }
        ensures ok { OnOk result (self.new ≡ after_get self.old) }
        ensures failed { IsErrOf result StoreFail.Failed → self.new ≡ after_fault (after_get self.old) }
        ensures memory { IsErrOf result StoreFail.Memory → self.new ≡ after_get self.old }
    {
        self.gets = self.gets.saturating_add(1);
        if self.failing_gets.fails() {
            return Err(self.fault());
        }
        Ok(self.blobs.get(alloc, key)?)
    }

    fn erase(&mut self, alloc: Global, key: Key) -> Result<(), StoreFail>
        ensures changes { Changes (record { key = key; bytes = None })
            (memory_store self.old) (memory_store self.new) result }
        ensures time { Elapses (memory_store self.old) (memory_store self.new) }
        ensures gets { self.new.gets ≡ self.old.gets }
        ensures puts { self.new.puts ≡ self.old.puts }
        ensures cause { TellsFailure StoreFail.Failed self.old.faults self.new.faults result }
        ensures fails { IsErrOf result StoreFail.Failed ↔ IsTrue (fails_next self.old.failing_erases) }
        ensures ok { OnOk result (self.new ≡ with_bytes key None (after_erase self.old)) }
        ensures failed { IsErrOf result StoreFail.Failed → self.new ≡ after_fault (after_erase self.old) }
        ensures memory { IsErrOf result StoreFail.Memory → ⊥ }
    {
        if self.failing_erases.fails() {
            return Err(self.fault());
        }
        self.blobs.erase(key);
        Ok(())
    }
}
