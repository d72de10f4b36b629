//! Sets that are kept as ascending lists.

ghost use Rattle.std.specs.Prelude.{◌≡◌, ◌<◌, [], ◌∷◌, ◌++◌, length, map, slice_get, Some, OnOk, OnErr, IfErr};
ghost use Rattle.std.specs.List.Sorted.{IsStrictlyIncreasing};
ghost use Rattle.oemm_lists.specs.Ascending.{IsAboveLast};
ghost use Rattle.oemm_lists.specs.Numbers.{among};

use crate::list::{Copied, List};
use std::alloc::{AllocError, Global};
use std::marker::Model;

/// What is told apart by a number, as names are.
pub trait Numbered: Copy {
    ghost use Rattle.std.specs.Prelude.{List, ℕ};

    /// The item's number.
    ghost number: { Self → ℕ };

    /// The numbers of items.
    ghost numbers: { List Self → List ℕ };

    /// The item's number.
    fn number(&self) -> u32
        ensures { result ≡ number self.now };

    /// The numbers are those of the items, one by one.
    ghost each: { (items : List Self) → numbers items ≡ map number items };
}

/// Items with strictly ascending numbers.
#[derive(Debug, Drop)]
pub struct AscendingSet<T: Numbered> {
    items: List<T>,
}

impl<T: Numbered> Model for AscendingSet<T> {
    ghost use Rattle.std.specs.Prelude.{List, ℕ};
    ghost use Rattle.std.specs.List.Sorted.{IsStrictlyIncreasing};

    ghost Value = { List ℕ };

    ghost view = { λ s. T.numbers s.items };

    ghost invariant = { λ s. IsStrictlyIncreasing (T.numbers s.items) };
}

impl<T: Numbered> AscendingSet<T> {
    /// No items. It takes no memory.
    pub fn new(alloc: Global) -> Self
        ensures { result ≡ [] }
    {
        AscendingSet {
            items: List::new(alloc),
        }
    }

    /// The set of these items, which it takes over.
    pub fn of(items: List<T>) -> Self
        requires { IsStrictlyIncreasing (T.numbers items) }
        ensures { result ≡ T.numbers items }
    {
        AscendingSet { items }
    }

    /// The number of items.
    pub fn len(&self) -> usize
        ensures { result ≡ length self.now }
    {
        self.items.len()
    }

    /// The item at a place, counted from 0.
    pub fn at(&self, place: usize) -> T
        requires { place < length self.now }
        ensures { slice_get self.now place ≡ Some (T.number result) }
    {
        *self.items.at(place)
    }

    /// Whether the item is in the set. It takes time of about log N for N items.
    pub fn has(&self, item: T) -> bool
        ensures { result ≡ among (T.number item) self.now }
    {
        let number = item.number();
        self.items
            .slice()
            .binary_search_by_key(&number, |other| other.number())
            .is_ok()
    }

    /// The items, lent.
    pub fn slice(&self) -> &[T]
        ensures items { T.numbers result.now ≡ self.now }
        ensures ascending { IsStrictlyIncreasing self.now }
    {
        self.items.slice()
    }

    /// Adds an item above all others. For want of memory it hands the item back, and the set is unchanged.
    pub fn push(&mut self, item: T) -> Result<(), T>
        requires { IsAboveLast (T.number item) self.old }
        ensures ok { OnOk result (self.new ≡ self.old ++ T.number item ∷ []) }
        ensures err { IfErr result (λ back. (back ≡ item) × (self.new ≡ self.old)) }
    {
        self.items.push(item)
    }

    /// Adds an item above all others. For want of memory the set is unchanged.
    ///
    /// # Errors
    /// Want of memory.
    pub fn add(&mut self, item: T) -> Result<(), AllocError>
        requires { IsAboveLast (T.number item) self.old }
        ensures ok { OnOk result (self.new ≡ self.old ++ T.number item ∷ []) }
        ensures err { OnErr result (self.new ≡ self.old) }
    {
        match self.push(item) {
            Ok(()) => Ok(()),
            Err(_) => Err(AllocError),
        }
    }
}

impl<T: Numbered + Copied> Copied for AscendingSet<T> {
    fn copy(&self, alloc: Global) -> Result<AscendingSet<T>, AllocError> {
        Ok(AscendingSet {
            items: self.items.copy(alloc)?,
        })
    }
}
