//! Values put into a store.

ghost use Rattle.std.specs.Prelude.{◌≡◌};
ghost use Rattle.fault_counts.specs.Counts.{TellsFailure};
ghost use Rattle.leaf_codec.specs.Entries.{IsEntrySpelling, KeepsEntryRules};
ghost use Rattle.leaf_codec.specs.declared.formats.TheConstants.{NEWEST};
ghost use Rattle.oemm_blobs.specs.declared.keys.Key.TheVariants as key;
ghost use Rattle.oemm_shelf.specs.Shelves.{Puts};

use leaf_codec::Blob;
use mesh_data::{Copied, Entry};
use oemm_blobs::{Blobs, Key, StoreFail};
use sheet_data::NumberedEntry;
use std::alloc::Global;

/// Puts the spelling of a value under a key.
///
/// # Errors
/// `Failed` where the store fails, and `Memory`.
pub fn put_value<B: Blobs, V: Blob>(
    alloc: Global,
    blobs: &mut B,
    key: Key,
    value: &V,
) -> Result<(), StoreFail>
    requires { V.rules value.now }
    ensures puts { Puts key (λ bytes. V.spelling NEWEST bytes value.now)
        (B.store blobs.old) (B.store blobs.new) result }
    ensures cause { TellsFailure StoreFail.Failed (B.store blobs.old).faults (B.store blobs.new).faults result }
{
    let bytes = value.encode(alloc)?;
    blobs.put(alloc, key, bytes.slice())
}

/// Puts an entry of the journal under its number.
///
/// # Errors
/// `Failed` where the store fails, and `Memory`.
pub fn put_entry<B: Blobs>(
    alloc: Global,
    blobs: &mut B,
    number: u32,
    entry: &Entry,
) -> Result<(), StoreFail>
    requires { KeepsEntryRules (record { number = number; entry = entry.now }) }
    ensures puts { Puts (key.Entry number)
        (λ bytes. IsEntrySpelling NEWEST bytes (record { number = number; entry = entry.now }))
        (B.store blobs.old) (B.store blobs.new) result }
    ensures cause { TellsFailure StoreFail.Failed (B.store blobs.old).faults (B.store blobs.new).faults result }
{
    let numbered = NumberedEntry {
        number,
        entry: entry.copy(alloc)?,
    };
    put_value(alloc, blobs, Key::Entry(number), &numbered)
}
