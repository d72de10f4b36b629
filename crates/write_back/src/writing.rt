//! The sheets that a patch makes.

ghost use Rattle.std.specs.Prelude.{◌≡◌, map, IfOk};
ghost use Rattle.std.specs.List.Sorted.{IsStrictlyIncreasing};
ghost use Rattle.oemm_lists.specs.Ascending.{in_order};
ghost use Rattle.oemm_octree.specs.Leaves.{AreTiles};
ghost use Rattle.mesh_data.specs.Triangles.{tri_cmp};
ghost use Rattle.mesh_sheets.specs.Written.{sheets_of, written};
ghost use Rattle.sheet_forms.specs.Formed.{IsPatchFor};
ghost use Rattle.write_back.specs.Groups.{IsGrouped};

use crate::groups::{by_leaf, kept_tris, tris_at_corners};
use crate::homes::{homes_of, tagged_vertices};
use crate::near::near_at;
use mesh_cutting::{of_leaf, tris_of};
use mesh_data::{Name, Tri, Tris};
use oemm_lists::{Copied, List};
use oemm_octree::{Cells, LeafNo, LeafSet};
use sheet_data::{LeafSheet, NearList, Patch, SheetVertex, SheetVertices, Sheets};
use std::alloc::{AllocError, Global};

/// A patch by leaves: the homes of its names, its vertices by their homes, and its triangles by the leaves that keep
/// them and by those of their corners.
#[derive(Drop)]
struct Groups {
    none: LeafNo,
    homes: Vec<(Name, LeafNo)>,
    vertices: Vec<(LeafNo, SheetVertex)>,
    kept: Vec<(LeafNo, Tri)>,
    corners: Vec<(LeafNo, Tri)>,
}

/// The patch by leaves.
fn groups_of(alloc: Global, patch: &Patch, cells: &Cells) -> Result<Groups, AllocError>
    requires tiles { AreTiles cells.now }
    requires ascend { IsStrictlyIncreasing (map (λ x. x.name) patch.now.vertices) }
    ensures { IfOk result (λ groups. IsGrouped cells.now patch.now groups.none groups.homes.items groups.vertices.items
        groups.kept.items groups.corners.items) }
{
    let none = LeafNo(cells.len() as u32);
    let tagged = tagged_vertices(alloc, cells, &patch.vertices)?;
    let homes = homes_of(alloc, tagged.as_slice())?;
    let kept = kept_tris(alloc, homes.as_slice(), none, patch)?;
    let corners = tris_at_corners(alloc, homes.as_slice(), none, patch)?;
    let vertices = by_leaf(tagged)?;
    let kept = by_leaf(kept)?;
    let corners = by_leaf(corners)?;
    Ok(Groups {
        none,
        homes,
        vertices,
        kept,
        corners,
    })
}

/// The vertices without their leaves.
fn vertices_of(alloc: Global, tagged: &[(LeafNo, SheetVertex)]) -> Result<SheetVertices, AllocError>
    ensures { IfOk result (λ vertices. vertices ≡ map (λ x. x.1) tagged.now) }
{
    let mut vertices = SheetVertices::new(alloc);
    for (_, x) in tagged {
        vertices.add(x.copy(alloc)?)?;
    }
    Ok(vertices)
}

/// The triangles without their leaves, in order.
fn faces_of(alloc: Global, tagged: &[(LeafNo, Tri)]) -> Result<Tris, AllocError>
    ensures { IfOk result (λ faces. faces ≡ in_order tri_cmp (map (λ x. x.1) tagged.now)) }
{
    let mut faces = tris_of(alloc, tagged)?;
    faces.sort_unstable();
    Ok(List::from_vec(faces))
}

/// The sheet of a leaf.
fn sheet_of(
    alloc: Global,
    patch: &Patch,
    cells: &Cells,
    groups: &Groups,
    list: &NearList,
) -> Result<LeafSheet, AllocError>
    requires ascend { IsStrictlyIncreasing (map (λ x. x.name) patch.now.vertices) }
    requires grouped { IsGrouped cells.now patch.now groups.now.none groups.now.homes.items groups.now.vertices.items
        groups.now.kept.items groups.now.corners.items }
    ensures { IfOk result (λ sheet. sheet ≡ written cells.now patch.now list.now) }
{
    let leaf = list.leaf;
    let homes = groups.homes.as_slice();
    let own = of_leaf(groups.corners.as_slice(), leaf);
    let vertices = vertices_of(alloc, of_leaf(groups.vertices.as_slice(), leaf))?;
    let faces = faces_of(alloc, of_leaf(groups.kept.as_slice(), leaf))?;
    let near = near_at(alloc, homes, groups.none, leaf, own, &list.outside)?;
    Ok(LeafSheet {
        leaf,
        vertices,
        faces,
        near,
    })
}

/// The sheets that a patch makes for the leaves of its core, in their order. It takes time of about n log n for n
/// vertices, triangles and listed leaves of the patch, and that of a search among the cells for each vertex.
///
/// # Errors
/// Want of memory.
pub fn sheets_of(
    alloc: Global,
    patch: &Patch,
    cells: &Cells,
    core: &LeafSet,
) -> Result<Sheets, AllocError>
    requires tiles { AreTiles cells.now }
    requires formed { IsPatchFor cells.now core.now patch.now }
    ensures sheets { IfOk result (λ sheets. sheets ≡ sheets_of cells.now patch.now) }
    ensures leaves { IfOk result (λ sheets. map (λ s. s.leaf) sheets ≡ core.now) }
{
    let groups = groups_of(alloc, patch, cells)?;
    let mut sheets = Vec::with_capacity(alloc, core.len())?;
    for list in patch.near.slice() {
        sheets.push(sheet_of(alloc, patch, cells, &groups, list)?)?;
    }
    Ok(List::from_vec(sheets))
}
