//! What edits answer.

ghost use Rattle.std.specs.Prelude.{◌≡◌, ◌≢◌, ◌∷◌, ◌&&◌, ◌||◌, ◌==◌, [], not, filter, int_le, None, IfOk, OnErr};
ghost use Rattle.std.specs.List.{list_all, find};
ghost use Rattle.std.specs.Option.{is_none};
ghost use Rattle.mesh_data.specs.Edits.{is_held, is_free, pair_lines, if_any, edge_line, first_line, folds_with, cost, move_verdict, collapse_verdict, flip_verdict};
ghost use Rattle.mesh_data.specs.Links.{opposites, link_violation, is_closed_by_three};
ghost use Rattle.oemm_octree.specs.Octree.{is_inside};
ghost use Rattle.mesh_data.specs.Rings.{has_closed_ring};
ghost use Rattle.mesh_data.specs.Triangles.{corners, has_corner};
ghost use Rattle.mesh_data.specs.declared.edits.Reply.TheVariants.{Border, Link, Closed, Folds, Dear, Done, DoneAt};
ghost use Rattle.edit_steps.specs.Lines.{refusal};

use crate::plain_mesh::PlainMesh;
use mesh_data::{Name, Reply, Tri};
use oemm_octree::{Area, Point};
use std::alloc::{AllocError, Global};
use triangle_edits::{are_neighbours, has_corner, is_closed_by_three, link_violation, opposites};
use triangle_lists::has_closed_ring;

impl PlainMesh {
    /// Whether the mesh has the vertex, in the area.
    pub(crate) fn is_held(&self, area: &Area, v: Name) -> bool
        ensures { result ≡ is_held (is_inside area.now) self.now v }
    {
        match self.vertices.point(v) {
            Some(point) => area.holds(&point),
            None => false,
        }
    }

    /// Whether the triangle lacks the vertex, or its other names are held.
    fn frees(&self, area: &Area, v: Name, t: &Tri) -> bool
        ensures { result ≡ (not (has_corner v t.now) || list_all (is_held (is_inside area.now) self.now)
            (filter (λ w. not (w == v)) (corners t.now))) }
    {
        if !has_corner(v, t) {
            return true;
        }
        (t.a == v || self.is_held(area, t.a))
            && (t.b == v || self.is_held(area, t.b))
            && (t.c == v || self.is_held(area, t.c))
    }

    /// Whether each triangle lacks the vertex or has its other names held.
    fn all_free(&self, area: &Area, v: Name) -> bool
        ensures { result ≡ list_all
            (λ t. not (has_corner v t) || list_all (is_held (is_inside area.now) self.now)
            (filter (λ w. not (w == v)) (corners t))) self.now.tris }
    {
        self.tris.iter().all(|t| self.frees(area, v, t))
    }

    /// Whether the vertex and all its neighbours are held.
    fn is_free(&self, area: &Area, v: Name) -> bool
        ensures { result ≡ is_free (is_inside area.now) self.now v }
    {
        self.is_held(area, v) && self.all_free(area, v)
    }

    /// What a move answers.
    pub(crate) fn move_reply(&self, area: &Area, v: Name, to: &Point) -> Reply
        ensures { result ≡ move_verdict (is_inside area.now) self.now v to.now }
    {
        if !self.is_held(area, v) {
            Reply::Unheld(v)
        } else if !self.is_free(area, v) {
            Reply::Frozen(v)
        } else if !area.holds(to) {
            Reply::Outside
        } else {
            Reply::Done
        }
    }

    /// What an edit of two vertices answers that aren't two free ones with an edge between them.
    fn pair_refusal(&self, area: &Area, u: Name, v: Name) -> Option<Reply>
        ensures { result ≡ refusal (pair_lines (is_inside area.now) self.now u v) }
    {
        if !self.is_held(area, u) {
            Some(Reply::Unheld(u))
        } else if !self.is_held(area, v) {
            Some(Reply::Unheld(v))
        } else if u == v {
            Some(Reply::Same)
        } else if !self.is_free(area, u) {
            Some(Reply::Frozen(u))
        } else if !self.is_free(area, v) {
            Some(Reply::Frozen(v))
        } else if !are_neighbours(self.tris.as_slice(), u, v) {
            Some(Reply::Apart)
        } else {
            None
        }
    }

    /// What a collapse answers that would change the surface's topology.
    fn link_refusal(&self, alloc: Global, u: Name, v: Name) -> Result<Option<Reply>, AllocError>
        ensures { IfOk result (λ r. r ≡ refusal (
            (not (has_closed_ring self.now.tris u), Border)
            ∷ if_any Link (link_violation self.now.tris u v)
            ∷ (is_closed_by_three self.now.tris u && is_closed_by_three self.now.tris v, Closed)
            ∷ [])) }
    {
        let tris = self.tris.as_slice();
        if !has_closed_ring(alloc, tris, u)? {
            return Ok(Some(Reply::Border));
        }
        if let Some(w) = link_violation(alloc, tris, u, v)? {
            return Ok(Some(Reply::Link(w)));
        }
        if is_closed_by_three(alloc, tris, u)? && is_closed_by_three(alloc, tris, v)? {
            return Ok(Some(Reply::Closed));
        }
        Ok(None)
    }

    /// What a collapse answers that the topology allows.
    fn price_reply(&self, u: Name, v: Name, max: i128) -> Reply
        requires { u ≢ v }
        ensures { result ≡ first_line (
            if_any Folds (find (folds_with self.now u v) self.now.tris)
            ∷ (not (int_le (cost self.now u v) max), Dear (cost self.now u v))
            ∷ []) (DoneAt (cost self.now u v)) }
    {
        if let Some(t) = self.first_folding(u, v) {
            return Reply::Folds(t);
        }
        let cost = self.cost(u, v);
        if cost > max {
            Reply::Dear(cost)
        } else {
            Reply::DoneAt(cost)
        }
    }

    /// What a collapse of `u` onto `v` answers.
    pub(crate) fn collapse_reply(
        &self,
        alloc: Global,
        area: &Area,
        u: Name,
        v: Name,
        max: i128,
    ) -> Result<Reply, AllocError>
        ensures reply { IfOk result (λ r. r ≡ collapse_verdict (is_inside area.now) self.now u v max) }
        ensures memory { OnErr result (refusal (pair_lines (is_inside area.now) self.now u v) ≡ None) }
    {
        if let Some(reply) = self.pair_refusal(area, u, v) {
            return Ok(reply);
        }
        if let Some(reply) = self.link_refusal(alloc, u, v)? {
            return Ok(reply);
        }
        Ok(self.price_reply(u, v, max))
    }

    /// What a flip answers whose two vertices have an edge between them.
    fn turn_reply(&self, a: Name, b: Name) -> Reply
        ensures { result ≡ first_line (
            (is_none (opposites self.now.tris a b), Border)
            ∷ edge_line self.now.tris (opposites self.now.tris a b)
            ∷ []) Done }
    {
        let tris = self.tris.as_slice();
        let Some((c, d)) = opposites(tris, a, b) else {
            return Reply::Border;
        };
        if are_neighbours(tris, c, d) {
            Reply::Edge(c.min(d), c.max(d))
        } else {
            Reply::Done
        }
    }

    /// What a flip of the edge of `a` and `b` answers.
    pub(crate) fn flip_reply(&self, area: &Area, a: Name, b: Name) -> Reply
        ensures { result ≡ flip_verdict (is_inside area.now) self.now a b }
    {
        match self.pair_refusal(area, a, b) {
            Some(reply) => reply,
            None => self.turn_reply(a, b),
        }
    }
}
