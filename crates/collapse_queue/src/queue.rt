//! A queue of stamped costs: a binary heap whose items are told out of date by stamps, and left in it until they come
//! out or their room is wanted.

ghost use Rattle.std.specs.Prelude.{◌≡◌, ◌<◌, ◌||◌, ℕ, nat_lt, true, not, [], ◌∷◌, List, map, filter, find, length, IsTrue, ◌↔◌, IfOk, IfSome, IfNone};
ghost use Rattle.std.specs.List.{list_any};
ghost use Rattle.std.specs.List.Sorted.{IsPermutation};
ghost use Rattle.std.specs.FinMap as finite;
ghost use Rattle.std.specs.BinaryHeap.{heap_items, heap_len, heap_capacity, IsHeap};
ghost use Rattle.std.specs.Ordering.{is_le};
ghost use Rattle.oemm_lists.specs.Ascending.{in_order};
ghost use Rattle.collapse_queue.specs.Candidates.{candidate_cmp, is_live, stamp_in, unreversed, down_cmp, behind};
ghost use Rattle.collapse_queue.specs.Queues.{Queued, no_stamps, HasRoom, pushed, restamped, popped, least_live, kept_in, IsLeastLive, HasNoneLive};

use crate::candidate::Candidate;
use crate::stamps::Stamps;
use mesh_data::{Name, NameSet};
use std::alloc::{AllocError, Global};
use std::cmp::Reverse;
use std::collections::BinaryHeap;
use std::marker::Model;

/// Candidates for the next collapse, of which those are live whose stamp isn't below the present stamp of their first
/// name.
#[derive(Drop)]
pub struct Queue {
    room: usize,
    heap: BinaryHeap<Reverse<Candidate>>,
    stamps: Stamps,
}

impl Model for Queue {
    ghost use Rattle.std.specs.Prelude.{◌≤◌, List, ℕ};
    ghost use Rattle.std.specs.Ordering.{nat_cmp};
    ghost use Rattle.std.specs.BinaryHeap.{heap_items, heap_len, heap_capacity, IsHeap};
    ghost use Rattle.oemm_lists.specs.Ascending.{in_order};
    ghost use Rattle.collapse_queue.specs.Candidates.{candidate_cmp, unreversed, down_cmp};
    ghost use Rattle.collapse_queue.specs.Queues.{Queued, queued_code};

    ghost Value = { Queued };

    ghost coded = { queued_code };

    ghost view = { λ q. record {
      room = q.room;
      items = in_order candidate_cmp (unreversed (heap_items q.heap));
      stamps = q.stamps;
    } };

    ghost invariant = { λ q. IsHeap down_cmp (heap_items q.heap) × (q.room ≤ heap_capacity q.heap) };
}

/// Takes the items away that aren't live. It takes no memory.
fn drop_stale(heap: &mut BinaryHeap<Reverse<Candidate>>, stamps: &Stamps)
    ensures items { IsPermutation (filter (λ c. is_live stamps.now c.0) (heap_items heap.old)) (heap_items heap.new) }
    ensures capacity { heap_capacity heap.new ≡ heap_capacity heap.old }
    ensures ordered { IsHeap down_cmp (heap_items heap.new) }
{
    heap.retain(|item| stamps.is_live(&item.0));
}

/// Takes the items away that aren't live, if there are so many items. It takes no memory.
fn make_room(heap: &mut BinaryHeap<Reverse<Candidate>>, stamps: &Stamps, room: usize)
    requires { IsHeap down_cmp (heap_items heap.old) }
    ensures items { IsPermutation (kept_in room stamps.now (heap_items heap.old)) (heap_items heap.new) }
    ensures capacity { heap_capacity heap.new ≡ heap_capacity heap.old }
    ensures ordered { IsHeap down_cmp (heap_items heap.new) }
{
    if heap.len() >= room {
        drop_stale(heap, stamps);
    }
}

/// Whether there is an item that isn't live.
fn has_stale(heap: &BinaryHeap<Reverse<Candidate>>, stamps: &Stamps) -> bool
    ensures { result ≡ list_any (λ r. not (is_live stamps.now r.0)) (heap_items heap.now) }
{
    heap.as_slice().iter().any(|item| !stamps.is_live(&item.0))
}

/// Whether there are fewer items than the room, or one of them isn't live.
fn has_place(heap: &BinaryHeap<Reverse<Candidate>>, stamps: &Stamps, room: usize) -> bool
    ensures { result ≡ (nat_lt (length (heap_items heap.now)) room
        || list_any (λ r. not (is_live stamps.now r.0)) (heap_items heap.now)) }
{
    heap.len() < room || has_stale(heap, stamps)
}

/// Takes items away up to the first that is live, and gives that one.
fn pop_live(heap: &mut BinaryHeap<Reverse<Candidate>>, stamps: &Stamps) -> Option<Candidate>
    requires { IsHeap down_cmp (heap_items heap.old) }
    ensures least { result ≡ find (is_live stamps.now) (in_order candidate_cmp (unreversed (heap_items heap.old))) }
    ensures items { in_order candidate_cmp (unreversed (heap_items heap.new))
        ≡ behind (is_live stamps.now) (in_order candidate_cmp (unreversed (heap_items heap.old))) }
    ensures capacity { heap_capacity heap.new ≡ heap_capacity heap.old }
    ensures ordered { IsHeap down_cmp (heap_items heap.new) }
{
    while let Some(item) = heap.pop() {
        if stamps.is_live(&item.0) {
            return Some(item.0);
        }
    }
    None
}

impl Queue {
    /// An empty queue with room for `n` items, in which each of the names has the stamp 0. It takes time of about
    /// N log N for N names. No other call takes memory.
    ///
    /// # Errors
    /// Want of memory.
    pub fn with_room(alloc: Global, n: u32, names: &NameSet) -> Result<Queue, AllocError>
        ensures { IfOk result (λ q. q ≡ record { room = n; items = []; stamps = no_stamps names.now }) }
    {
        let heap = BinaryHeap::with_capacity(alloc, n as usize)?;
        let stamps = Stamps::for_names(alloc, names)?;
        Ok(Queue {
            room: n as usize,
            heap,
            stamps,
        })
    }

    /// Whether there is room for one more item: there are fewer than `n`, or one of them isn't live. It takes time of
    /// about n where there are n, and little else.
    pub fn has_room(&self) -> bool
        ensures { IsTrue result ↔ HasRoom self.now }
    {
        has_place(&self.heap, &self.stamps, self.room)
    }

    /// Puts an item in. Where there are `n` items, those that aren't live go first. It takes no memory. It takes time
    /// of about log n, and where items go, of about n: so about log n on the mean where at most half of the `n` items
    /// are ever live.
    pub fn push(&mut self, item: Candidate)
        requires { HasRoom self.old }
        ensures { self.new ≡ pushed item self.old }
    {
        make_room(&mut self.heap, &self.stamps, self.room);
        match self.heap.push(Reverse(item)) {
            Ok(()) => (),
            Err(_) => unreachable!(),
        }
    }

    /// The present stamp of a name, if it was named when room was made. It takes time of about log N for N names.
    pub fn stamp_of(&self, u: Name) -> Option<u64>
        ensures { result ≡ finite.get self.now.stamps u }
    {
        self.stamps.of(u)
    }

    /// Gives a name a later stamp, so that its items that have a lesser one are no longer live. It takes no memory, and
    /// time of about log N for N names.
    pub fn restamp(&mut self, u: Name, stamp: u64)
        requires named { finite.contains_key self.old.stamps u ≡ true }
        requires later { stamp_in self.old.stamps u < stamp }
        ensures { self.new ≡ restamped u stamp self.old }
    {
        self.stamps.set(u, stamp);
    }

    /// Takes out the live item with the least cost, and of those the least first name, second name and stamp; none
    /// where no item is live. The items that aren't live and come before it go too. It takes no memory, and time of
    /// about log n for each item that goes, so that every item is paid for by its push.
    pub fn pop_least(&mut self) -> Option<Candidate>
        ensures least { IfSome result (λ c. IsLeastLive self.old c) }
        ensures none { IfNone result (HasNoneLive self.old) }
        ensures first { result ≡ least_live self.old }
        ensures queue { self.new ≡ popped self.old }
    {
        pop_live(&mut self.heap, &self.stamps)
    }
}
