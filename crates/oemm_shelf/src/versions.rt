//! The present versions of leaves.

ghost use Rattle.std.specs.Prelude.{◌≡◌, ◌<◌, ◌≤◌, ◌+◌, ◌^◌, ℕ, length, slice_index, All, IfOk};
ghost use Rattle.oemm_limits.specs.declared.TheConstants.{MOST_TASKS};
ghost use Rattle.oemm_octree.specs.Leaves.{AreBelow};
ghost use Rattle.stored_mesh.specs.Versions.{version};
ghost use Rattle.oemm_shelf.specs.Shelves.{AreRaised};

use mesh_data::Entry;
use oemm_octree::LeafSet;
use std::alloc::{AllocError, Global};

/// So many zeros: the first versions of leaves, and the first counts of lanes.
pub fn zeros(alloc: Global, count: usize) -> Result<Vec<u32>, AllocError>
    ensures each { IfOk result (λ versions. length versions.items ≡ count) }
    ensures is { IfOk result (λ versions. (leaf : ℕ) → slice_index versions.items leaf ≡ 0) }
{
    vec![in alloc; 0u32; count]
}

/// Gives the leaves of a core the version of an entry of this number.
pub fn raise(versions: &mut Vec<u32>, core: &LeafSet, number: u32)
    requires below { AreBelow (length versions.old.items) core.now }
    requires number { number < MOST_TASKS }
    ensures { AreRaised core.now number versions.old.items versions.new.items }
{
    for leaf in core.slice() {
        versions[leaf.0 as usize] = number + 1;
    }
}

/// The versions of so many leaves by the entries of a journal.
pub fn versions_by(alloc: Global, count: usize, entries: &[Entry]) -> Result<Vec<u32>, AllocError>
    requires few { length entries.now ≤ MOST_TASKS }
    requires cores { All (λ e. AreBelow count e.core) entries.now }
    ensures each { IfOk result (λ versions. length versions.items ≡ count) }
    ensures is { IfOk result (λ versions. (leaf : ℕ) → leaf < count
        → slice_index versions.items leaf ≡ version entries.now leaf) }
{
    let mut versions = zeros(alloc, count)?;
    for (number, entry) in entries.iter().enumerate() {
        raise(&mut versions, &entry.core, number as u32);
    }
    Ok(versions)
}
