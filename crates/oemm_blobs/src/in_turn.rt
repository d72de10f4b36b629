//! Several changes of a store, one after another.

ghost use Rattle.std.specs.Prelude.{◌≡◌, ◌≤◌, ◌+◌, length};
ghost use Rattle.fault_counts.specs.Counts.{TellsFailure};
ghost use Rattle.oemm_blobs.specs.Store.{Changes, ChangesInTurn};

use crate::blobs::{Blobs, StoreFail};
use crate::keys::Change;
use std::alloc::Global;

/// Makes the changes one after another: a put of the bytes, or an erase where there are none.
///
/// # Errors
/// `Failed` where the store fails, and `Memory`, at the first change that is refused. Those before it are made.
pub fn change_in_turn<B: Blobs>(
    alloc: Global,
    blobs: &mut B,
    changes: &[Change],
) -> Result<(), StoreFail>
    ensures turn { ChangesInTurn changes.now (B.store blobs.old) (B.store blobs.new) result }
    ensures gets { (B.store blobs.new).gets ≡ (B.store blobs.old).gets }
    ensures kept_puts { (B.store blobs.old).puts ≤ (B.store blobs.new).puts }
    ensures puts { (B.store blobs.new).puts ≤ (B.store blobs.old).puts + length changes.now }
    ensures cause { TellsFailure StoreFail.Failed (B.store blobs.old).faults (B.store blobs.new).faults result }
{
    for change in changes {
        make_change(alloc, blobs, change)?;
    }
    Ok(())
}

fn make_change<B: Blobs>(alloc: Global, blobs: &mut B, change: &Change) -> Result<(), StoreFail>
    ensures changes { Changes change.now (B.store blobs.old) (B.store blobs.new) result }
    ensures gets { (B.store blobs.new).gets ≡ (B.store blobs.old).gets }
    ensures kept_puts { (B.store blobs.old).puts ≤ (B.store blobs.new).puts }
    ensures puts { (B.store blobs.new).puts ≤ (B.store blobs.old).puts + 1 }
    ensures cause { TellsFailure StoreFail.Failed (B.store blobs.old).faults (B.store blobs.new).faults result }
{
    match &change.bytes {
        Some(bytes) => blobs.put(alloc, change.key, bytes.slice()),
        None => blobs.erase(alloc, change.key),
    }
}
