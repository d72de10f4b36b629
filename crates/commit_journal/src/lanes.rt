//! The part of a journal that is one lane's.

ghost use Rattle.std.specs.Prelude.{◌≡◌, ◌==◌, IfOk, filter};

use mesh_data::{Entries, Lane};
use oemm_lists::Copied;
use std::alloc::{AllocError, Global};

/// The entries of a lane, in their order.
///
/// # Errors
/// Want of memory.
pub fn lane_part(alloc: Global, entries: &Entries, lane: Lane) -> Result<Entries, AllocError>
    ensures { IfOk result (λ part. part ≡ filter (λ e. e.task.lane == lane) entries.now) }
{
    let mut part = Vec::new(alloc);
    for entry in entries.slice() {
        if entry.task.lane == lane {
            part.push(entry.copy(alloc)?)?;
        }
    }
    Ok(Entries::from_vec(part))
}
