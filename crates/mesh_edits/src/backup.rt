//! What edits change of a fragment, and how it is put back.

ghost use Rattle.std.specs.Prelude.{◌≡◌, IfOk, OnOk};
ghost use Rattle.mesh_edits.specs.Fragments.{ArePartsOf, IsPatchOn, patch_by};

use crate::fragment::Fragment;
use crate::vertices::PatchVertices;
use half_edge::HalfMesh;
use oemm_lists::Copied;
use std::alloc::{AllocError, Global};

/// What edits change of a fragment.
#[derive(Drop)]
pub(crate) struct Parts {
    halves: HalfMesh,
    vertices: PatchVertices,
    whole: u32,
}

impl Fragment {
    /// A copy of what edits change. It takes time of about N log N for N vertices and triangles.
    ///
    /// # Errors
    /// Want of memory.
    pub(crate) fn parts(&self, alloc: Global) -> Result<Parts, AllocError>
        ensures parts { IfOk result (λ x. ArePartsOf self.now x.vertices x.halves x.whole) }
        ensures patch { IfOk result (λ x.
            patch_by x.vertices x.halves.tris self.now.patch.mixed self.now.patch.near ≡ self.now.patch) }
        ensures formed { OnOk result (IsPatchOn self.now.area self.now.patch) }
    {
        let listed = self.vertices.to_list(alloc)?;
        Ok(Parts {
            halves: self.halves.copy(alloc)?,
            vertices: PatchVertices::of(alloc, listed.slice())?,
            whole: self.whole,
        })
    }

    /// Puts back what edits changed.
    pub(crate) fn put_back(&mut self, parts: Parts)
        requires { ArePartsOf self.old parts.vertices parts.halves parts.whole }
        ensures patch { self.new.patch
            ≡ patch_by parts.vertices parts.halves.tris self.old.patch.mixed self.old.patch.near }
        ensures area { self.new.area ≡ self.old.area }
    {
        let Parts {
            halves,
            vertices,
            whole,
        } = parts;
        self.halves = halves;
        self.vertices = vertices;
        self.whole = whole;
    }
}
