//! What stands together in lists that are grouped.

ghost use Rattle.std.specs.Prelude.{◌≡◌, ◌==◌};
ghost use Rattle.std.specs.List.{filter};
ghost use Rattle.std.specs.List.Sorted.{IsNonDecreasingBy};

use mesh_data::{Name, Tri};
use oemm_octree::LeafNo;

/// The items of a leaf.
pub fn of_leaf<T>(groups: &[(LeafNo, T)], leaf: LeafNo) -> &[(LeafNo, T)]
    requires { IsNonDecreasingBy (λ x. x.0) groups.now }
    ensures { result.now ≡ filter (λ x. x.0 == leaf) groups.now }
{
    let (_, rest) = groups.split_at(groups.partition_point(|x| x.0 < leaf));
    let (group, _) = rest.split_at(rest.partition_point(|x| x.0 <= leaf));
    group
}

/// The triangles that start at v.
pub fn starting_at(corners: &[(LeafNo, Tri)], v: Name) -> &[(LeafNo, Tri)]
    requires { IsNonDecreasingBy (λ x. x.1.a) corners.now }
    ensures { result.now ≡ filter (λ x. x.1.a == v) corners.now }
{
    let (_, rest) = corners.split_at(corners.partition_point(|x| x.1.a < v));
    let (group, _) = rest.split_at(rest.partition_point(|x| x.1.a <= v));
    group
}
