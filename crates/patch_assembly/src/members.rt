//! Whether a set has an item.

ghost use Rattle.std.specs.Prelude.{◌≡◌};
ghost use Rattle.oemm_octree.specs.Leaves.{is_one_of};

use mesh_data::{Name, NameSet};
use oemm_octree::{LeafNo, LeafSet};

/// Whether the leaf is one of these.
pub fn has_leaf(leaves: &LeafSet, leaf: LeafNo) -> bool
    ensures { result ≡ is_one_of leaves.now leaf }
{
    leaves.has(leaf)
}

/// Whether the name is one of these.
pub fn has_name(names: &NameSet, v: Name) -> bool
    ensures { result ≡ is_one_of names.now v }
{
    names.has(v)
}
