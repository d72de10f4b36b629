//! Simplification: the cheapest collapse that is done, again and again.

ghost use Rattle.std.specs.Prelude.{◌≡◌, ◌≢◌, ◌≤◌, not, true, IfOk, OnOk, OnErr};
ghost use Rattle.std.specs.List.{list_all};
ghost use Rattle.std.specs.Option.{option_map_or};
ghost use Rattle.std.specs.Ordering.{is_le};
ghost use Rattle.mesh_data.specs.Edits.{is_held, cost, collapse_verdict, done_step, done_steps, least_step, step_cmp, whole_count, simplified, verdict, after};
ghost use Rattle.oemm_octree.specs.Octree.{is_inside};
ghost use Rattle.mesh_data.specs.Triangles.{corners};
ghost use Rattle.mesh_data.specs.declared.edits.Edit.TheVariants.{Simplify};
ghost use Rattle.edit_steps.specs.Steps.{lesser, both_ways, best_of, answer_of};

use crate::plain_mesh::PlainMesh;
use mesh_data::{Name, Reply, Step, Steps, Tri};
use oemm_limits::MOST_ITEMS;
use oemm_lists::List;
use oemm_octree::Area;
use std::alloc::{AllocError, Global};
use std::cmp::Ordering;

/// The order of two steps, by their costs and then by their names.
fn step_order(s: &Step, t: &Step) -> Ordering
    ensures { result ≡ step_cmp s.now t.now }
{
    s.cost.cmp(&t.cost).then(s.u.cmp(&t.u).then(s.v.cmp(&t.v)))
}

/// Whether the step is less than the best one, if there is one.
fn beats(step: &Step, best: &Option<Step>) -> bool
    ensures { result ≡ option_map_or (λ least. not (is_le (step_cmp least step.now))) best.now true }
{
    match best {
        Some(least) => !step_order(least, step).is_le(),
        None => true,
    }
}

/// The collapse of `u` onto `v`, if this reply to it says that it is done.
fn done_step(u: Name, v: Name, reply: &Reply) -> Option<Step>
    ensures { result ≡ done_step u v reply.now }
{
    match reply {
        Reply::DoneAt(cost) => Some(Step { u, v, cost: *cost }),
        _ => None,
    }
}

/// The lesser of two steps, or the one that there is.
fn lesser(best: Option<Step>, other: Option<Step>) -> Option<Step>
    ensures { result ≡ lesser best other }
{
    match other {
        Some(step) if beats(&step, &best) => Some(step),
        _ => best,
    }
}

impl PlainMesh {
    /// Whether all three vertices of the triangle are held.
    fn is_whole(&self, area: &Area, t: &Tri) -> bool
        ensures { result ≡ list_all (is_held (is_inside area.now) self.now) (corners t.now) }
    {
        self.is_held(area, t.a) && self.is_held(area, t.b) && self.is_held(area, t.c)
    }

    /// How many triangles have all three vertices held.
    fn whole_count(&self, area: &Area) -> usize
        ensures count { result ≡ whole_count (is_inside area.now) self.now }
        ensures few { result ≤ MOST_ITEMS }
    {
        self.tris.iter().filter(|t| self.is_whole(area, t)).count()
    }

    /// The collapse of `u` onto `v`, with its cost.
    fn step_at(&self, u: Name, v: Name) -> Step
        requires { u ≢ v }
        ensures { result ≡ record { u = u; v = v; cost = cost self.now u v } }
    {
        Step {
            u,
            v,
            cost: self.cost(u, v),
        }
    }

    /// The lesser of the best step and the collapse of `u` onto `v`, if that is done.
    fn lesser_step(
        &self,
        alloc: Global,
        area: &Area,
        max: i128,
        best: Option<Step>,
        u: Name,
        v: Name,
    ) -> Result<Option<Step>, AllocError>
        ensures { IfOk result
            (λ s. s ≡ lesser best (done_step u v (collapse_verdict (is_inside area.now) self.now u v max))) }
    {
        if u == v {
            return Ok(best);
        }
        let step = self.step_at(u, v);
        if !beats(&step, &best) {
            return Ok(best);
        }
        let reply = self.collapse_reply(alloc, area, u, v, max)?;
        Ok(lesser(best, done_step(u, v, &reply)))
    }

    /// The least of the best step and the collapses along the triangle's sides that are done.
    fn best_at(
        &self,
        alloc: Global,
        area: &Area,
        max: i128,
        best: Option<Step>,
        t: &Tri,
    ) -> Result<Option<Step>, AllocError>
        ensures { IfOk result (λ s. s ≡ best_of (answer_of (is_inside area.now) self.now max) best (both_ways t.now)) }
    {
        let best = self.lesser_step(alloc, area, max, best, t.a, t.b)?;
        let best = self.lesser_step(alloc, area, max, best, t.b, t.a)?;
        let best = self.lesser_step(alloc, area, max, best, t.b, t.c)?;
        let best = self.lesser_step(alloc, area, max, best, t.c, t.b)?;
        let best = self.lesser_step(alloc, area, max, best, t.c, t.a)?;
        self.lesser_step(alloc, area, max, best, t.a, t.c)
    }

    /// The least collapse that is done, if one is.
    fn least_step(&self, alloc: Global, area: &Area, max: i128) -> Result<Option<Step>, AllocError>
        ensures { IfOk result (λ s. s ≡ least_step (done_steps (is_inside area.now) self.now max)) }
    {
        let mut best = None;
        for t in &self.tris {
            best = self.best_at(alloc, area, max, best, t)?;
        }
        Ok(best)
    }

    /// Makes the least collapse that is done, again and again, as long as more triangles than the target have all three
    /// vertices held. For want of memory some may have been made.
    fn make_steps(
        &mut self,
        alloc: Global,
        area: &Area,
        max: i128,
        target: u32,
    ) -> Result<Steps, AllocError>
        ensures steps { IfOk result (λ steps. steps ≡ (simplified (is_inside area.now) self.old max target).steps) }
        ensures mesh { OnOk result (self.new ≡ (simplified (is_inside area.now) self.old max target).mesh) }
    {
        let mut steps = Vec::new(alloc);
        while self.whole_count(area) > target as usize {
            let Some(step) = self.least_step(alloc, area, max)? else {
                break;
            };
            self.collapse(alloc, step.u, step.v)?;
            steps.push(step)?;
        }
        Ok(List::from_vec(steps))
    }

    /// Answers a simplification, and makes it. For want of memory it may be made in part.
    pub(crate) fn simplify(
        &mut self,
        alloc: Global,
        area: &Area,
        max: i128,
        target: u32,
    ) -> Result<Reply, AllocError>
        ensures reply { IfOk result (λ r. r ≡ verdict (is_inside area.now) self.old (Simplify max target)) }
        ensures mesh { OnOk result
            (self.new ≡ after self.old (Simplify max target)
            (verdict (is_inside area.now) self.old (Simplify max target))) }
    {
        let steps = self.make_steps(alloc, area, max, target)?;
        let left = self.whole_count(area) as u32;
        Ok(Reply::Simplified { steps, left })
    }

    /// Answers a simplification, and makes it on a copy. For want of memory the mesh is unchanged.
    pub(crate) fn do_simplify(
        &mut self,
        alloc: Global,
        area: &Area,
        max: i128,
        target: u32,
    ) -> Result<Reply, AllocError>
        ensures reply { IfOk result (λ r. r ≡ verdict (is_inside area.now) self.old (Simplify max target)) }
        ensures mesh { OnOk result
            (self.new ≡ after self.old (Simplify max target)
            (verdict (is_inside area.now) self.old (Simplify max target))) }
        ensures err { OnErr result (self.new ≡ self.old) }
    {
        let mut mesh = self.copy(alloc)?;
        let reply = mesh.simplify(alloc, area, max, target)?;
        *self = mesh;
        Ok(reply)
    }
}
