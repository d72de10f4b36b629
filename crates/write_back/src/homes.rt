//! The homes of the names of a patch.

ghost use Rattle.std.specs.Prelude.{◌≡◌, map, IfOk};
ghost use Rattle.std.specs.List.Sorted.{IsStrictlyIncreasing};
ghost use Rattle.oemm_octree.specs.Leaves.{AreTiles, home};
ghost use Rattle.write_back.specs.Homes.{keeper_in, leaf_in};

use mesh_data::{Name, Tri};
use oemm_lists::Copied;
use oemm_octree::{Cells, LeafNo, home_of};
use sheet_data::{SheetVertex, SheetVertices};
use std::alloc::{AllocError, Global};

/// Copies of the vertices, each with its home.
pub fn tagged_vertices(
    alloc: Global,
    cells: &Cells,
    vertices: &SheetVertices,
) -> Result<Vec<(LeafNo, SheetVertex)>, AllocError>
    requires { AreTiles cells.now }
    ensures { IfOk result (λ tagged. tagged.items ≡ map (λ x. (home cells.now x.point, x)) vertices.now) }
{
    let mut tagged = Vec::with_capacity(alloc, vertices.len())?;
    for x in vertices.slice() {
        tagged.push((home_of(cells, x.point), x.copy(alloc)?))?;
    }
    Ok(tagged)
}

/// The names of the vertices, each with its home.
pub fn homes_of(
    alloc: Global,
    tagged: &[(LeafNo, SheetVertex)],
) -> Result<Vec<(Name, LeafNo)>, AllocError>
    ensures { IfOk result (λ homes. homes.items ≡ map (λ x. (x.1.name, x.0)) tagged.now) }
{
    tagged.iter().map(|x| (x.1.name, x.0)).collect(alloc)
}

/// The leaf of a name by these homes, and another one where it isn't one of them.
pub fn leaf_at(homes: &[(Name, LeafNo)], none: LeafNo, v: Name) -> LeafNo
    requires { IsStrictlyIncreasing (map (λ h. h.0) homes.now) }
    ensures { result ≡ leaf_in homes.now none v }
{
    match homes.binary_search_by_key(&v, |h| h.0) {
        Ok(place) => homes[place].1,
        Err(_) => none,
    }
}

/// The least leaf of the corners of a triangle.
pub fn keeper_at(homes: &[(Name, LeafNo)], none: LeafNo, t: &Tri) -> LeafNo
    requires { IsStrictlyIncreasing (map (λ h. h.0) homes.now) }
    ensures { result ≡ keeper_in homes.now none t.now }
{
    let a = leaf_at(homes, none, t.a);
    let b = leaf_at(homes, none, t.b);
    let c = leaf_at(homes, none, t.c);
    a.min(b.min(c))
}
