//! Edits and tasks on the whole mesh.

ghost use Rattle.std.specs.Prelude.{◌≡◌, ◌≢◌, ◌<◌, ◌^◌, ℕ, length, true, Some, None, IfOk, OnOk, OnErr};
ghost use Rattle.std.specs.FinMap as finite;
ghost use Rattle.mesh_data.specs.Edits.{moved, collapsed, flipped, pair_lines, verdict, after};
ghost use Rattle.mesh_data.specs.Keeps.{Keeps};
ghost use Rattle.mesh_data.specs.Links.{opposites};
ghost use Rattle.mesh_data.specs.Manifold.{IsManifold};
ghost use Rattle.oemm_octree.specs.Octree.{AreCells, is_inside};
ghost use Rattle.mesh_data.specs.declared.edits.Edit.TheVariants.{Move, Collapse, Flip};
ghost use Rattle.mesh_data.specs.declared.edits.Reply.TheVariants.{Done};
ghost use Rattle.mesh_data.specs.Work.{work, do_task, wide_entry};
ghost use Rattle.edit_steps.specs.Lines.{refusal};
ghost use Rattle.mesh_model.specs.Memory.{CanWantMemory};

use crate::plain_mesh::PlainMesh;
use mesh_data::{Edit, Entry, Name, Replies, Reply, Task};
use oemm_lists::{Copied, List};
use oemm_octree::{Area, Cells, LeafSet, Point, core_leaves};
use std::alloc::{AllocError, Global};
use triangle_edits::{collapsed_tris, flipped_tris, opposites};

impl PlainMesh {
    /// Answers one edit, and makes it where the answer is `Done`, `DoneAt` or `Simplified`. Of the other answers, which
    /// leave the mesh as it was, it gives the first that applies:
    ///
    /// - `Unheld`: a name of the edit that isn't held: the mesh has no such vertex in the area.
    /// - `Same`: a collapse or a flip has one name twice.
    /// - `Frozen`: a name of the edit that has a neighbour which isn't held.
    /// - `Apart`: no triangle has both names of a collapse or a flip.
    /// - `Outside`: a move goes to a point that isn't in the area.
    /// - `Border`: the name that is to go has no closed ring, or the edge that is to be flipped has no triangle at one
    ///   of its sides.
    /// - `Link`: the least name that violates the link condition of a collapse (Dey, Edelsbrunner, Guha and Nekhayev,
    ///   1999): a neighbour of both of its names that doesn't lie opposite of their edge.
    /// - `Closed`: both names of a collapse have a closed ring of three.
    /// - `Folds`: the least triangle that a collapse would turn over.
    /// - `Dear`: what a collapse costs, where that is more than it may: the sum of the squared distances of the kept
    ///   vertex from the planes of both, each weighted by four times the squared area of its triangle (after Garland
    ///   and Heckbert, 1997, on one end of the edge), in units of the grid to the sixth power.
    /// - `Edge`: the edge that a flip would make, its lesser name first, where it is there already.
    ///
    /// `Done` is the answer to a move or a flip that was made, and `DoneAt` to a collapse, with its cost. Every
    /// simplification is answered `Simplified`, also where it makes no collapse: it tells the collapses that it made,
    /// in their order, and how many triangles with all three vertices held are left.
    ///
    /// An oriented 2-manifold stays one with its Euler characteristic and its border, whatever the answer.
    ///
    /// A move takes time of about F for F triangles, and a collapse and a flip of about F log F. A simplification scans
    /// the sides of all triangles for each of its steps, so its time grows with the steps times the triangles. In a
    /// scan each collapse that is less than the best one so far is tried in full, which takes F log F again.
    ///
    /// # Errors
    ///
    /// `AllocError` for want of memory; then the mesh is unchanged. A move wants none, a collapse only where its two
    /// names are free and neighbours, and a flip only where it is made. A simplification is made on a copy of the mesh.
    pub fn do_edit(&mut self, alloc: Global, area: &Area, edit: &Edit) -> Result<Reply, AllocError>
        ensures reply { IfOk result (λ r. r ≡ verdict (is_inside area.now) self.old edit.now) }
        ensures mesh { OnOk result (self.new
            ≡ after self.old edit.now (verdict (is_inside area.now) self.old edit.now)) }
        ensures err { OnErr result (self.new ≡ self.old) }
        ensures memory { OnErr result (CanWantMemory (is_inside area.now) self.old edit.now) }
        ensures keeps { IsManifold self.old → Keeps self.old self.new }
    {
        self.make_edit(alloc, area, edit)
    }

    /// Answers one edit, and makes it where it is done. For want of memory the mesh is unchanged.
    fn make_edit(&mut self, alloc: Global, area: &Area, edit: &Edit) -> Result<Reply, AllocError>
        ensures reply { IfOk result (λ r. r ≡ verdict (is_inside area.now) self.old edit.now) }
        ensures mesh { OnOk result (self.new
            ≡ after self.old edit.now (verdict (is_inside area.now) self.old edit.now)) }
        ensures err { OnErr result (self.new ≡ self.old) }
        ensures memory { OnErr result (CanWantMemory (is_inside area.now) self.old edit.now) }
    {
        match edit {
            Edit::Move { v, to } => Ok(self.do_move(area, *v, *to)),
            Edit::Collapse { u, v, max } => self.do_collapse(alloc, area, *u, *v, *max),
            Edit::Flip { a, b } => self.do_flip(alloc, area, *a, *b),
            Edit::Simplify { max, target } => self.do_simplify(alloc, area, *max, *target),
        }
    }

    /// Does the task's edits in order on the core of its box, as `do_edit` does each. A task whose core has more than
    /// `limit` leaves is wide and changes nothing. An oriented 2-manifold stays one with its Euler characteristic and
    /// its border.
    ///
    /// # Errors
    ///
    /// `AllocError` for want of memory: the mesh is unchanged. The edits are done on one copy of the mesh.
    pub fn do_task(
        &mut self,
        alloc: Global,
        cells: &Cells,
        limit: u32,
        task: &Task,
    ) -> Result<Entry, AllocError>
        requires octree { AreCells cells.now }
        requires few { length cells.now < 2 ^ 32 }
        ensures entry { IfOk result (λ e. e ≡ (do_task cells.now limit self.old task.now).entry) }
        ensures mesh { OnOk result (self.new ≡ (do_task cells.now limit self.old task.now).mesh) }
        ensures err { OnErr result (self.new ≡ self.old) }
        ensures keeps { IsManifold self.old → Keeps self.old self.new }
    {
        self.make_task(alloc, cells, limit, task)
    }

    /// Does the task's edits in order on the core of its box. For want of memory the mesh is unchanged.
    fn make_task(
        &mut self,
        alloc: Global,
        cells: &Cells,
        limit: u32,
        task: &Task,
    ) -> Result<Entry, AllocError>
        requires octree { AreCells cells.now }
        requires few { length cells.now < 2 ^ 32 }
        ensures entry { IfOk result (λ e. e ≡ (do_task cells.now limit self.old task.now).entry) }
        ensures mesh { OnOk result (self.new ≡ (do_task cells.now limit self.old task.now).mesh) }
        ensures err { OnErr result (self.new ≡ self.old) }
    {
        let copy = task.copy(alloc)?;
        let core = core_leaves(alloc, cells, &task.low, &task.high)?;
        if core.len() > limit as usize {
            return Ok(wide_entry(alloc, copy));
        }
        let area = Area::of(alloc, cells, &core)?;
        let replies = self.work(alloc, &area, task.edits.slice())?;
        Ok(Entry {
            task: copy,
            wide: false,
            replies,
            core,
        })
    }

    /// Does the edits in order, and answers their replies. For want of memory the mesh is unchanged.
    fn work(&mut self, alloc: Global, area: &Area, edits: &[Edit]) -> Result<Replies, AllocError>
        ensures mesh { OnOk result (self.new ≡ (work (is_inside area.now) self.old edits.now).mesh) }
        ensures replies { IfOk result (λ rs. rs ≡ (work (is_inside area.now) self.old edits.now).replies) }
        ensures err { OnErr result (self.new ≡ self.old) }
    {
        let mut mesh = self.copy(alloc)?;
        let replies = mesh.do_edits(alloc, area, edits)?;
        *self = mesh;
        Ok(replies)
    }

    /// Does the edits in order, and answers their replies. For want of memory some may have been done.
    fn do_edits(
        &mut self,
        alloc: Global,
        area: &Area,
        edits: &[Edit],
    ) -> Result<Replies, AllocError>
        ensures mesh { OnOk result (self.new ≡ (work (is_inside area.now) self.old edits.now).mesh) }
        ensures replies { IfOk result (λ rs. rs ≡ (work (is_inside area.now) self.old edits.now).replies) }
    {
        let mut replies = Vec::new(alloc);
        for edit in edits {
            let reply = self.do_in_place(alloc, area, edit)?;
            replies.push(reply)?;
        }
        Ok(List::from_vec(replies))
    }

    /// Does as `make_edit`, without a copy of the mesh. For want of memory a simplification may be made in part.
    fn do_in_place(&mut self, alloc: Global, area: &Area, edit: &Edit) -> Result<Reply, AllocError>
        ensures reply { IfOk result (λ r. r ≡ verdict (is_inside area.now) self.old edit.now) }
        ensures mesh { OnOk result (self.new
            ≡ after self.old edit.now (verdict (is_inside area.now) self.old edit.now)) }
    {
        match edit {
            Edit::Simplify { max, target } => self.simplify(alloc, area, *max, *target),
            _ => self.make_edit(alloc, area, edit),
        }
    }

    /// Answers a move, and makes it where the answer is `Done`.
    fn do_move(&mut self, area: &Area, v: Name, to: Point) -> Reply
        ensures reply { result ≡ verdict (is_inside area.now) self.old (Move v to) }
        ensures mesh { self.new ≡ after self.old (Move v to) result }
    {
        let reply = self.move_reply(area, v, &to);
        if reply == Reply::Done {
            self.move_to(v, to);
        }
        reply
    }

    /// Answers a collapse, and makes it where the answer is `DoneAt`. For want of memory the mesh is unchanged.
    fn do_collapse(
        &mut self,
        alloc: Global,
        area: &Area,
        u: Name,
        v: Name,
        max: i128,
    ) -> Result<Reply, AllocError>
        ensures reply { IfOk result (λ r. r ≡ verdict (is_inside area.now) self.old (Collapse u v max)) }
        ensures mesh { IfOk result (λ r. self.new ≡ after self.old (Collapse u v max) r) }
        ensures err { OnErr result (self.new ≡ self.old) }
        ensures memory { OnErr result (refusal (pair_lines (is_inside area.now) self.old u v) ≡ None) }
    {
        let reply = self.collapse_reply(alloc, area, u, v, max)?;
        if let Reply::DoneAt(_) = reply {
            self.collapse(alloc, u, v)?;
        }
        Ok(reply)
    }

    /// Answers a flip, and makes it where the answer is `Done`. For want of memory the mesh is unchanged.
    fn do_flip(&mut self, alloc: Global, area: &Area, a: Name, b: Name) -> Result<Reply, AllocError>
        ensures reply { IfOk result (λ r. r ≡ verdict (is_inside area.now) self.old (Flip a b)) }
        ensures mesh { IfOk result (λ r. self.new ≡ after self.old (Flip a b) r) }
        ensures err { OnErr result (self.new ≡ self.old) }
        ensures memory { OnErr result (verdict (is_inside area.now) self.old (Flip a b) ≡ Done) }
    {
        let reply = self.flip_reply(area, a, b);
        if let Reply::Done = reply {
            self.flip(alloc, a, b)?;
        }
        Ok(reply)
    }

    /// Puts a vertex at another point, if the mesh has it.
    fn move_to(&mut self, v: Name, to: Point)
        ensures { self.new ≡ moved self.old v to }
    {
        self.vertices.set_point(v, to);
    }

    /// Puts `v` for `u`. For want of memory the mesh is unchanged.
    pub(crate) fn collapse(&mut self, alloc: Global, u: Name, v: Name) -> Result<(), AllocError>
        requires apart { u ≢ v }
        requires there { finite.contains_key self.old.vertices v ≡ true }
        ensures ok { OnOk result (self.new ≡ collapsed self.old u v) }
        ensures err { OnErr result (self.new ≡ self.old) }
    {
        let tris = collapsed_tris(alloc, self.tris.as_slice(), u, v)?;
        self.vertices.take_over(alloc, u, v)?;
        self.tris = tris;
        Ok(())
    }

    /// Turns the edge of `a` and `b` to the two names that lie opposite of it, if they differ. For want of memory the
    /// mesh is unchanged.
    fn flip(&mut self, alloc: Global, a: Name, b: Name) -> Result<(), AllocError>
        requires apart { a ≢ b }
        requires ends { (c d : ℕ) → opposites self.old.tris a b ≡ Some (c, d) → c ≢ d }
        ensures ok { OnOk result (self.new ≡ flipped self.old a b) }
        ensures err { OnErr result (self.new ≡ self.old) }
    {
        let tris = self.tris.as_slice();
        let Some(across) = opposites(tris, a, b) else {
            return Ok(());
        };
        self.tris = flipped_tris(alloc, tris, a, b, across.0, across.1)?;
        Ok(())
    }
}

fn wide_entry(alloc: Global, task: Task) -> Entry
    ensures { result ≡ wide_entry task }
{
    Entry {
        task,
        wide: true,
        replies: List::new(alloc),
        core: LeafSet::new(alloc),
    }
}
