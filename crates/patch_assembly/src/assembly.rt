//! A patch made of sheets.

ghost use Rattle.patch_assembly.specs.Clashes.{AreNamed, Makes, made};

use crate::clash::{AssemblyFault, Clash};
use crate::faces::{gathered, mixed_of, whole_of};
use crate::held::held_by;
use crate::near::near_lists;
use mesh_data::List;
use oemm_limits::MOST_ITEMS;
use oemm_octree::LeafSet;
use sheet_data::{LeafSheet, Patch};
use std::alloc::Global;

/// The patch that the sheets of a core, in its order, and those of other leaves make: the vertices of the core's own,
/// and the triangles of all of them, sorted by how many corners are among these. It takes time of about n log n for n
/// vertices, faces and near leaves in the sheets.
///
/// # Errors
/// What shows that the sheets aren't of one mesh: a name that comes twice in the core's, the least one; or else more
/// planes in these, or else more faces in all, than a mesh has. And want of memory.
pub fn assemble(
    alloc: Global,
    core: &LeafSet,
    inner: &[LeafSheet],
    outer: &[LeafSheet],
) -> Result<Patch, AssemblyFault>
    requires { AreNamed inner.now }
    ensures { Makes result (made core.now inner.now outer.now) }
{
    let (vertices, held) = held_by(alloc, inner)?;
    let faces = gathered(alloc, inner, outer)?;
    let kept = faces.as_slice();
    let count = kept.len() as u64;
    if count > MOST_ITEMS {
        return Err(AssemblyFault::Clash(Clash::Many { count }));
    }
    Ok(Patch {
        vertices: List::from_vec(vertices),
        whole: whole_of(alloc, &held, kept)?,
        mixed: mixed_of(alloc, &held, kept)?,
        near: near_lists(alloc, core, inner)?,
    })
}
