//! The parts of a fragment.

ghost use Rattle.std.specs.Prelude.{◌≡◌, ◌&&◌, ℕ, map, All, None, IfErr, IfOk};
ghost use Rattle.std.specs.List.{filter, flat_map, list_all, list_any};
ghost use Rattle.std.specs.List.Sorted.{IsStrictlyIncreasing};
ghost use Rattle.oemm_lists.specs.Ascending.{in_order};
ghost use Rattle.oemm_lists.specs.Numbers.{among};
ghost use Rattle.mesh_data.specs.Manifold.{is_corner};
ghost use Rattle.mesh_data.specs.Triangles.{IsProper, corners, has_corner, tri_cmp, turned};
ghost use Rattle.triangle_lists.specs.HeldAudit.{FindsHeldShape};
ghost use Rattle.half_edge.specs.Faults.{TellsFault};
ghost use Rattle.half_edge.specs.Meshes.{is_held};
ghost use Rattle.mesh_sheets.specs.Assembled.{has_name};
ghost use Rattle.mesh_sheets.specs.Written.{patch_tris};
ghost use Rattle.mesh_edits.specs.Faults.{names};

use crate::vertices::PatchVertices;
use half_edge::{HalfFault, HalfMesh};
use mesh_data::{Name, NameSet, Tri, Tris};
use oemm_lists::List;
use sheet_data::{Mixed, Patch, SheetVertex};
use std::alloc::{AllocError, Global};

/// The names of the vertices.
pub(crate) fn names_of(alloc: Global, vertices: &[SheetVertex]) -> Result<Vec<Name>, AllocError>
    ensures { IfOk result (λ found. found.items ≡ names vertices.now) }
{
    vertices.iter().map(|x| x.name).collect(alloc)
}

/// The triangles of a patch.
fn tris_of(alloc: Global, patch: &Patch) -> Result<Vec<Tri>, AllocError>
    ensures { IfOk result (λ tris. tris.items ≡ patch_tris patch.now) }
{
    let mut tris = Vec::from_slice(alloc, patch.whole.slice())?;
    for x in patch.mixed.slice() {
        tris.push(x.tri)?;
    }
    Ok(tris)
}

/// The half-edges of a patch.
pub(crate) fn halves_of(alloc: Global, patch: &Patch) -> Result<HalfMesh, HalfFault>
    requires ascend { IsStrictlyIncreasing (names patch.now.vertices) }
    requires proper { All IsProper (patch_tris patch.now) }
    ensures good { IfOk result (λ m. FindsHeldShape (patch_tris patch.now) (names patch.now.vertices) None) }
    ensures tris { IfOk result (λ m. m.tris ≡ in_order tri_cmp (map turned (patch_tris patch.now))) }
    ensures held { IfOk result (λ m. (v : ℕ)
        → is_held m v ≡ (among v (names patch.now.vertices) && is_corner (patch_tris patch.now) v)) }
    ensures bad { IfErr result (TellsFault (patch_tris patch.now) (names patch.now.vertices)) }
{
    let held = NameSet::of(List::from_vec(names_of(alloc, patch.vertices.slice())?));
    let tris = tris_of(alloc, patch)?;
    HalfMesh::of_faces(alloc, tris.as_slice(), &held)
}

/// The corners of the triangles, as often as they come.
fn corners_of(alloc: Global, mixed: &[Mixed]) -> Result<Vec<Name>, AllocError>
    ensures { IfOk result (λ found. found.items ≡ flat_map (λ x. corners x.tri) mixed.now) }
{
    let mut names = Vec::new(alloc);
    for x in mixed {
        names.extend_from_slice(&[x.tri.a, x.tri.b, x.tri.c])?;
    }
    Ok(names)
}

/// The names of the triangles.
pub(crate) fn rim_of(alloc: Global, mixed: &[Mixed]) -> Result<NameSet, AllocError>
    ensures { IfOk result (λ rim. (v : ℕ) → among v rim ≡ list_any (λ x. has_corner v x.tri) mixed.now) }
{
    let mut names = corners_of(alloc, mixed)?;
    names.sort_unstable();
    names.dedup();
    Ok(NameSet::of(List::from_vec(names)))
}

/// Whether each corner of the triangle has a vertex.
fn is_whole(vertices: &PatchVertices, t: &Tri) -> bool
    ensures { result ≡ list_all (has_name vertices.now) (corners t.now) }
{
    vertices.has(t.a) && vertices.has(t.b) && vertices.has(t.c)
}

/// Those of the triangles of which each corner has a vertex.
pub(crate) fn whole_of(
    alloc: Global,
    vertices: &PatchVertices,
    tris: &[Tri],
) -> Result<Tris, AllocError>
    ensures { IfOk result
        (λ whole. whole ≡ filter (λ t. list_all (has_name vertices.now) (corners t)) tris.now) }
{
    let whole = tris
        .iter()
        .copied()
        .filter(|t| is_whole(vertices, t))
        .collect(alloc)?;
    Ok(List::from_vec(whole))
}
