//! The table of the leaves' holders.

ghost use Rattle.std.specs.Prelude.{◌≡◌, ℕ, length, Some, None, OnOk, IfErr, IfOk, replicate};
ghost use Rattle.oemm_octree.specs.Leaves.{AreBelow};
ghost use Rattle.checkout_table.specs.Holders.{AreFree, HoldersSet, IsLeastHeld, holder};

use mesh_data::{Lane, LeafNo, LeafSet};
use std::alloc::{AllocError, Global};
use std::marker::Model;

/// A leaf that is held, and the lane that holds it.
#[derive(Clone, Copy, Debug, PartialEq, Eq)]
pub struct Busy {
    pub leaf: LeafNo,
    pub lane: Lane,
}

/// Which lane holds each leaf, if one does: a lock on each leaf, as in locking of whole sets of resources at once.
#[derive(Debug, Drop)]
pub struct Table {
    holders: Vec<Option<Lane>>,
}

impl Model for Table {
    ghost use Rattle.std.specs.Prelude.{List, Option, ℕ};

    ghost Value = { List (Option ℕ) };

    ghost view = { λ t. t.holders.items };
}

/// The first of these leaves, which ascend, that is held.
fn find_held(holders: &[Option<Lane>], core: &LeafSet) -> Result<(), Busy>
    requires { AreBelow (length holders.now) core.now }
    ensures ok { OnOk result (AreFree holders.now core.now) }
    ensures err { IfErr result (λ busy. IsLeastHeld holders.now core.now busy) }
{
    for leaf in core.slice() {
        if let Some(lane) = holders[leaf.0 as usize] {
            return Err(Busy { leaf: *leaf, lane });
        }
    }
    Ok(())
}

/// Sets the holder, or none, of each of these leaves.
fn hold(holders: &mut [Option<Lane>], core: &LeafSet, lane: &Option<Lane>)
    requires { AreBelow (length holders.now) core.now }
    ensures { HoldersSet lane.now core.now holders.old holders.new }
{
    for leaf in core.slice() {
        holders[leaf.0 as usize] = *lane;
    }
}

impl Table {
    /// A table of so many leaves, none of them held. It alone takes memory.
    ///
    /// # Errors
    /// Want of memory.
    pub fn new(alloc: Global, leaves: u32) -> Result<Table, AllocError>
        ensures { IfOk result (λ table. table ≡ replicate leaves None) }
    {
        let mut holders = Vec::with_capacity(alloc, leaves as usize)?;
        for _ in 0..leaves {
            holders.push(None)?;
        }
        Ok(Table { holders })
    }

    /// Takes all leaves of a core for the lane, or none of them. It takes time in proportion to the core.
    ///
    /// # Errors
    /// The least leaf of the core that is held, with its holder, which may be the same lane; the table is unchanged.
    pub fn take(&mut self, core: &LeafSet, lane: Lane) -> Result<(), Busy>
        requires { AreBelow (length self.old) core.now }
        ensures free { OnOk result (AreFree self.old core.now) }
        ensures taken { OnOk result (HoldersSet (Some lane) core.now self.old self.new) }
        ensures leaves { length self.new ≡ length self.old }
        ensures held { IfErr result (λ busy. IsLeastHeld self.old core.now busy) }
        ensures same { IfErr result (λ busy. self.new ≡ self.old) }
    {
        find_held(self.holders.as_slice(), core)?;
        hold(self.holders.as_mut_slice(), core, &Some(lane));
        Ok(())
    }

    /// Releases the leaves of a core, whoever holds them. It takes time in proportion to the core.
    pub fn release(&mut self, core: &LeafSet)
        requires { AreBelow (length self.old) core.now }
        ensures { HoldersSet None core.now self.old self.new }
    {
        hold(self.holders.as_mut_slice(), core, &None);
    }

    /// The lane that holds the leaf: none where it is free, or where the table has no such leaf.
    pub fn holder(&self, leaf: LeafNo) -> Option<Lane>
        ensures { result ≡ holder self.now leaf }
    {
        let place = leaf.0 as usize;
        if place < self.holders.len() {
            self.holders[place]
        } else {
            None
        }
    }
}
