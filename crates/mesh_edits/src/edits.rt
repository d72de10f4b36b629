//! Edits of a fragment, and what they answer.

ghost use Rattle.std.specs.Prelude.{◌≡◌, None, IfOk, OnErr};
ghost use Rattle.oemm_octree.specs.Octree.{is_inside};
ghost use Rattle.mesh_data.specs.Edits.{is_done, pair_lines};
ghost use Rattle.mesh_data.specs.declared.edits.Edit.TheVariants.{Collapse, Flip, Move};
ghost use Rattle.edit_steps.specs.Lines.{refusal};
ghost use Rattle.patch_edits.specs.Edits.{after_on, verdict_on};
ghost use Rattle.patch_edits.specs.PatchMesh.{mesh_of};
ghost use Rattle.mesh_edits.specs.Memory.{CanWantMemory};
ghost use Rattle.mesh_edits.specs.Meshes.{EditsMeshes, KeepsMeshes};

use crate::fragment::Fragment;
use mesh_data::{Edit, Name, Reply};
use mesh_verdicts::{collapse_reply, flip_reply, move_reply};
use oemm_octree::Point;
use std::alloc::{AllocError, Global};

/// Whether the edit is made that has this answer.
fn is_done(reply: &Reply) -> bool
    ensures { result ≡ is_done reply.now }
{
    match reply {
        Reply::Done => true,
        Reply::DoneAt(_) => true,
        Reply::Simplified { .. } => true,
        _ => false,
    }
}

impl Fragment {
    /// Answers one edit, and makes it where the answer is `Done`, `DoneAt` or `Simplified`. The answer is the one that
    /// the edit has on each mesh of which this is a core's patch, and what is left is the patch of what the edit leaves
    /// of that mesh. There an oriented manifold stays one, with its Euler characteristic and its border. The cost of a
    /// collapse is the value of the quadrics of both vertices at the point that stays.
    ///
    /// A move takes time of about log N for N vertices; a collapse and a flip that of the triangles at their two names,
    /// and of some look-ups; a refused edit no more. A simplification takes time of about N log N at its start, where
    /// what it may change is copied, and of about log N for each pair that a step brings near.
    ///
    /// # Errors
    /// `AllocError` for want of memory; then the fragment is unchanged. A move and a flip want none, and a collapse only
    /// where its two names are free and neighbours.
    pub fn edit(&mut self, alloc: Global, edit: &Edit) -> Result<Reply, AllocError>
        ensures reply { IfOk result (λ r. r ≡ verdict_on (is_inside self.old.area) self.old.patch edit.now) }
        ensures patch { IfOk result (λ r. self.new.patch ≡ after_on self.old.patch edit.now r) }
        ensures area { self.new.area ≡ self.old.area }
        ensures err { OnErr result (self.new ≡ self.old) }
        ensures memory { OnErr result (CanWantMemory (is_inside self.old.area) self.old.patch edit.now) }
        ensures meshes { IfOk result
            (λ r. EditsMeshes self.old.area self.old.patch edit.now r self.new.patch) }
        ensures keeps { IfOk result (λ r. KeepsMeshes self.old.area self.old.patch edit.now r) }
    {
        self.make_edit(alloc, edit)
    }

    /// Answers one edit, and makes it where that is the answer.
    fn make_edit(&mut self, alloc: Global, edit: &Edit) -> Result<Reply, AllocError>
        ensures reply { IfOk result (λ r. r ≡ verdict_on (is_inside self.old.area) self.old.patch edit.now) }
        ensures patch { IfOk result (λ r. self.new.patch ≡ after_on self.old.patch edit.now r) }
        ensures area { self.new.area ≡ self.old.area }
        ensures err { OnErr result (self.new ≡ self.old) }
        ensures memory { OnErr result (CanWantMemory (is_inside self.old.area) self.old.patch edit.now) }
    {
        match edit {
            Edit::Move { v, to } => Ok(self.edit_move(*v, *to)),
            Edit::Collapse { u, v, max } => self.edit_collapse(alloc, *u, *v, *max),
            Edit::Flip { a, b } => Ok(self.edit_flip(*a, *b)),
            Edit::Simplify { max, target } => self.edit_simplify(alloc, *max, *target),
        }
    }

    /// Answers a move, and makes it where that is the answer.
    fn edit_move(&mut self, v: Name, to: Point) -> Reply
        ensures reply { result ≡ verdict_on (is_inside self.old.area) self.old.patch (Move v to) }
        ensures patch { self.new.patch ≡ after_on self.old.patch (Move v to) result }
        ensures area { self.new.area ≡ self.old.area }
    {
        let reply = move_reply(self, v, &to);
        if is_done(&reply) {
            self.do_move(v, to);
        }
        reply
    }

    /// Answers a collapse, and makes it where that is the answer. For want of memory the fragment is unchanged.
    fn edit_collapse(
        &mut self,
        alloc: Global,
        u: Name,
        v: Name,
        max: i128,
    ) -> Result<Reply, AllocError>
        ensures reply { IfOk result
            (λ r. r ≡ verdict_on (is_inside self.old.area) self.old.patch (Collapse u v max)) }
        ensures patch { IfOk result (λ r. self.new.patch ≡ after_on self.old.patch (Collapse u v max) r) }
        ensures area { self.new.area ≡ self.old.area }
        ensures err { OnErr result (self.new ≡ self.old) }
        ensures memory { OnErr result
            (refusal (pair_lines (is_inside self.old.area) (mesh_of self.old.patch) u v) ≡ None) }
    {
        let reply = collapse_reply(self, alloc, u, v, max)?;
        if is_done(&reply) {
            self.do_collapse(u, v);
        }
        Ok(reply)
    }

    /// Answers a flip, and makes it where that is the answer.
    fn edit_flip(&mut self, a: Name, b: Name) -> Reply
        ensures reply { result ≡ verdict_on (is_inside self.old.area) self.old.patch (Flip a b) }
        ensures patch { self.new.patch ≡ after_on self.old.patch (Flip a b) result }
        ensures area { self.new.area ≡ self.old.area }
    {
        let reply = flip_reply(self, a, b);
        if is_done(&reply) {
            self.do_flip(a, b);
        }
        reply
    }
}
