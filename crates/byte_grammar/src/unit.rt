//! Units of a list, read and put one after another.

ghost use Rattle.std.specs.Prelude.{◌≡◌, ◌≤◌, ℕ, List, [], Result, OnOk, ◌++◌};
ghost use Rattle.std.specs.List.{flat_map, AllByRecursion};
ghost use Rattle.byte_grammar.specs.Calls.{Gives};
ghost use Rattle.byte_grammar.specs.Reader.{Reader, many};

use crate::stop::Stop;
use std::alloc::{AllocError, Global};

/// The units of a list of a blob. The value is what the rules of the list look at besides the list.
pub trait Units: Sized {
    /// A unit.
    type Item: Drop;

    /// The greatest number of units that so many bytes can be. Room is taken for no more, whatever a count says.
    fn most(len: usize) -> usize
        ensures { result ≤ len };

    /// How a unit is read behind those before it in the list.
    ghost reading: { Self → List Self.Item → Reader Self.Item };

    /// Holds of what fits the types of its numbers.
    ghost fits: { Self.Item → Type 0 };

    /// What must hold of a unit to be put.
    ghost sound: { Self.Item → Type 0 };

    /// Its bytes.
    ghost spelled: { Self.Item → List ℕ };

    /// Puts its bytes at the end.
    fn write(item: &Self::Item, out: &mut Vec<u8>) -> Result<(), AllocError>
        requires { sound item.now }
        ensures { OnOk result (out.new.items ≡ out.old.items ++ spelled item.now) };

    /// Each of its numbers fits its type.
    fn known(item: &Self::Item)
        requires { sound item.now }
        ensures { fits item.now };

    /// The unit at the front, and the bytes behind it.
    fn read<'a>(
        &self,
        alloc: Global,
        before: &[Self::Item],
        bytes: &'a [u8],
    ) -> Result<(Self::Item, &'a [u8]), Stop>
        ensures { Gives (λ x. (x.0, x.1.now)) result (reading self.now before.now bytes.now) };
}

/// So many units, and the bytes behind them. Each unit is read once.
pub fn units_at<'a, U: Units>(
    alloc: Global,
    units: &U,
    count: u32,
    bytes: &'a [u8],
) -> Result<(Vec<U::Item>, &'a [u8]), Stop>
    ensures { Gives (λ x. (x.0.items, x.1.now)) result (many (U.reading units.now) count [] bytes.now) }
{
    let room = (count as usize).min(U::most(bytes.len()));
    let mut items = Vec::with_capacity(alloc, room)?;
    let mut rest = bytes;
    for _ in 0..count {
        let (item, after) = units.read(alloc, items.as_slice(), rest)?;
        items.push(item)?;
        rest = after;
    }
    Ok((items, rest))
}

/// That the numbers of units fit their types.
pub fn all_known<U: Units>(items: &[U::Item])
    requires { AllByRecursion U.sound items.now }
    ensures { AllByRecursion U.fits items.now }
{
    for item in items {
        U::known(item);
    }
}

/// Puts the bytes of units at the end. For want of memory those of the first ones stand there.
pub fn put_all<U: Units>(out: &mut Vec<u8>, items: &[U::Item]) -> Result<(), AllocError>
    requires { AllByRecursion U.sound items.now }
    ensures text { OnOk result (out.new.items ≡ out.old.items ++ flat_map U.spelled items.now) }
    ensures fits { OnOk result (AllByRecursion U.fits items.now) }
{
    for item in items {
        U::known(item);
        U::write(item, out)?;
    }
    Ok(())
}
