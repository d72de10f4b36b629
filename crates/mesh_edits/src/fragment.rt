//! A patch in memory, for edits.

ghost use Rattle.std.specs.Prelude.{◌≡◌, None, IfErr, IfOk};
ghost use Rattle.triangle_lists.specs.HeldAudit.{FindsHeldShape};
ghost use Rattle.mesh_sheets.specs.Written.{patch_tris};
ghost use Rattle.mesh_edits.specs.Faults.{TellsClash, names};
ghost use Rattle.mesh_edits.specs.Fragments.{IsPatchOn};

use crate::fault::FragmentFault;
use crate::made::{halves_of, rim_of, whole_of};
use crate::vertices::PatchVertices;
use half_edge::HalfMesh;
use mesh_data::NameSet;
use oemm_lists::Copied;
use oemm_octree::Area;
use sheet_data::{Mixeds, NearLists, Patch};
use std::alloc::{AllocError, Global};
use std::marker::Model;

/// A patch in memory, for edits: its triangles as half-edges, its vertices by their names, and the names of its mixed
/// triangles, which edits never change, as a set, and the number of its whole triangles. Contracts see the patch, and
/// the cells of its core.
#[derive(Drop)]
pub struct Fragment {
    pub(crate) halves: HalfMesh,
    pub(crate) vertices: PatchVertices,
    pub(crate) mixed: Mixeds,
    pub(crate) rim: NameSet,
    pub(crate) near: NearLists,
    pub(crate) area: Area,
    pub(crate) whole: u32,
}

impl Model for Fragment {
    ghost use Rattle.mesh_edits.specs.Fragments.{Fragmented, IsCounted, fragmented};

    ghost Value = { Fragmented };

    ghost view = { λ f. fragmented f.vertices f.halves f.mixed f.near f.area };

    ghost invariant = { λ f. IsCounted f.vertices f.halves f.mixed f.rim f.near f.area f.whole };
}

impl Fragment {
    /// A patch that is well formed for a core with these cells. It takes time of about N log N for N vertices and
    /// triangles.
    ///
    /// # Errors
    /// `Clash` where two triangles of the patch have a directed edge, with the least, or else where a vertex that is in
    /// a triangle has no ring in them, with the least; and want of memory.
    pub fn of(alloc: Global, patch: Patch, area: Area) -> Result<Fragment, FragmentFault>
        requires { IsPatchOn area patch }
        ensures patch { IfOk result (λ f. f.patch ≡ patch) }
        ensures area { IfOk result (λ f. f.area ≡ area) }
        ensures good { IfOk result (λ f. FindsHeldShape (patch_tris patch) (names patch.vertices) None) }
        ensures clash { IfErr result (TellsClash patch) }
    {
        let halves = halves_of(alloc, &patch)?;
        let vertices = PatchVertices::of(alloc, patch.vertices.slice())?;
        let rim = rim_of(alloc, patch.mixed.slice())?;
        let whole = patch.whole.slice().len() as u32;
        let Patch { mixed, near, .. } = patch;
        Ok(Fragment {
            halves,
            vertices,
            mixed,
            rim,
            near,
            area,
            whole,
        })
    }

    /// A copy of the patch as edited, which is well formed for the core. It takes time of about N log N for N vertices
    /// and triangles.
    ///
    /// # Errors
    /// Want of memory.
    pub fn to_patch(&self, alloc: Global) -> Result<Patch, AllocError>
        ensures patch { IfOk result (λ patch. patch ≡ self.now.patch) }
        ensures formed { IfOk result (IsPatchOn self.now.area) }
    {
        let tris = self.halves.faces(alloc)?;
        Ok(Patch {
            vertices: self.vertices.to_list(alloc)?,
            whole: whole_of(alloc, &self.vertices, tris.slice())?,
            mixed: self.mixed.copy(alloc)?,
            near: self.near.copy(alloc)?,
        })
    }
}
