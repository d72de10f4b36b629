//! The leaves that are near to a core's leaves outside of it.

ghost use Rattle.std.specs.Prelude.{◌≡◌, not, map, IfOk};
ghost use Rattle.std.specs.List.{filter};
ghost use Rattle.oemm_octree.specs.Leaves.{is_one_of};

use crate::members::has_leaf;
use mesh_data::List;
use oemm_octree::{LeafNo, LeafSet};
use sheet_data::{LeafSheet, NearList, NearLists};
use std::alloc::{AllocError, Global};

/// Those of the leaves that lie outside the core.
fn kept_outside(alloc: Global, core: &LeafSet, near: &[LeafNo]) -> Result<Vec<LeafNo>, AllocError>
    ensures { IfOk result (λ outside. outside.items ≡ filter (λ l. not (is_one_of core.now l)) near.now) }
{
    near.iter()
        .copied()
        .filter(|leaf| !has_leaf(core, *leaf))
        .collect(alloc)
}

/// Those of the leaves of a set that lie outside the core.
fn outside_of(alloc: Global, core: &LeafSet, near: &LeafSet) -> Result<LeafSet, AllocError>
    ensures { IfOk result (λ outside. outside ≡ filter (λ l. not (is_one_of core.now l)) near.now) }
{
    let outside = kept_outside(alloc, core, near.slice())?;
    Ok(LeafSet::of(List::from_vec(outside)))
}

/// For each sheet of a core the leaves outside the core that it names.
pub fn near_lists(
    alloc: Global,
    core: &LeafSet,
    inner: &[LeafSheet],
) -> Result<NearLists, AllocError>
    ensures { IfOk result (λ lists. lists ≡ map (λ s. record {
      leaf = s.leaf;
      outside = filter (λ l. not (is_one_of core.now l)) s.near;
    }) inner.now) }
{
    let mut lists = NearLists::new(alloc);
    for sheet in inner {
        lists.add(NearList {
            leaf: sheet.leaf,
            outside: outside_of(alloc, core, &sheet.near)?,
        })?;
    }
    Ok(lists)
}
