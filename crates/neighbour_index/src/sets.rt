//! Sets of leaves.

ghost use Rattle.std.specs.Prelude.{◌≡◌, ◌||◌, ℕ, IfOk};
ghost use Rattle.oemm_octree.specs.Leaves.{is_one_of};

use mesh_data::{LeafNo, LeafSet, List};
use std::alloc::{AllocError, Global};

/// The set of these leaves.
pub fn set_of(mut leaves: Vec<LeafNo>) -> LeafSet
    ensures { (l : ℕ) → is_one_of result l ≡ is_one_of leaves.items l }
{
    leaves.sort_unstable();
    leaves.dedup();
    LeafSet::of(List::from_vec(leaves))
}

/// The union of what is near outside of a core and what is near inside of it. It takes time of about N log N for N
/// leaves in both.
///
/// # Errors
/// Want of memory.
pub fn join_near(alloc: Global, outside: &LeafSet, inside: &LeafSet) -> Result<LeafSet, AllocError>
    ensures { IfOk result (λ near. (l : ℕ)
        → is_one_of near l ≡ (is_one_of outside.now l || is_one_of inside.now l)) }
{
    let mut leaves = Vec::from_slice(alloc, outside.slice())?;
    leaves.extend_from_slice(inside.slice())?;
    Ok(set_of(leaves))
}
