//! The present stamps of names.

ghost use Rattle.std.specs.Prelude.{◌≡◌, ◌<◌, true, map, IfOk, OnOk, OnErr, length};
ghost use Rattle.std.specs.Option.{option_copied, option_map_or, is_some};
ghost use Rattle.std.specs.FinMap as finite;
ghost use Rattle.std.specs.Ordering.{nat_cmp};
ghost use Rattle.collapse_queue.specs.Candidates.{stamp_in, is_live};
ghost use Rattle.collapse_queue.specs.Queues.{no_stamps};

use crate::candidate::Candidate;
use mesh_data::{Name, NameSet};
use std::alloc::{AllocError, Global};
use std::collections::BTreeMap;
use std::marker::Model;

/// A number for each of some names.
#[derive(Drop)]
pub struct Stamps {
    stamps: BTreeMap<Name, u64>,
}

impl Model for Stamps {
    ghost use Rattle.std.specs.Prelude.{ℕ};
    ghost use Rattle.std.specs.Ordering.{nat_cmp};
    ghost use Rattle.std.specs.FinMap as finite;
    ghost use Rattle.std.specs.Coded.{coded_ℕ};

    ghost Value = { finite.FinMap nat_cmp ℕ };

    ghost coded = { finite.code coded_ℕ coded_ℕ };

    ghost view = { λ a. finite.from_entries a.stamps.entries };
}

impl Stamps {
    /// No stamps. It takes no memory.
    fn new(alloc: Global) -> Stamps
        ensures { result ≡ finite.empty }
    {
        Stamps {
            stamps: BTreeMap::new(alloc),
        }
    }

    /// Gives a name a stamp.
    fn insert(&mut self, u: Name, stamp: u64) -> Result<(), AllocError>
        ensures ok { OnOk result (self.new ≡ finite.insert self.old u stamp) }
    {
        self.stamps.insert(u, stamp)?;
        Ok(())
    }

    /// The number 0 for each of these names. It takes time of about N log N for N names. No other call takes memory.
    ///
    /// # Errors
    /// Want of memory.
    pub fn for_names(alloc: Global, names: &NameSet) -> Result<Stamps, AllocError>
        ensures { IfOk result (λ s. s ≡ no_stamps names.now) }
    {
        let mut stamps = Stamps::new(alloc);
        for name in names.slice() {
            stamps.insert(*name, 0)?;
        }
        Ok(stamps)
    }

    /// The stamp of a name, if it has one.
    pub(crate) fn of(&self, u: Name) -> Option<u64>
        ensures { result ≡ finite.get self.now u }
    {
        self.stamps.get(&u).copied()
    }

    /// The number of a name, and 0 where it has none. It takes time of about log N.
    pub fn get(&self, u: Name) -> u64
        ensures { result ≡ stamp_in self.now u }
    {
        self.of(u).unwrap_or(0)
    }

    /// Gives a name that has a number another one. It takes no memory, and time of about log N.
    pub fn set(&mut self, u: Name, stamp: u64)
        requires { finite.contains_key self.old u ≡ true }
        ensures { self.new ≡ finite.insert self.old u stamp }
    {
        if let Some(old) = self.stamps.get_mut(&u) {
            *old = stamp;
        }
    }

    /// Whether the stamp of the item is still that of its first name, or a later one.
    pub(crate) fn is_live(&self, item: &Candidate) -> bool
        ensures { result ≡ is_live self.now item.now }
    {
        self.get(item.u) <= item.stamp
    }
}
