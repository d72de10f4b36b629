//! What edits answer, line by line.

ghost use Rattle.std.specs.Prelude.{◌≡◌, ◌≢◌, ◌∷◌, ◌&&◌, [], not, int_le, None, IfOk, OnErr};
ghost use Rattle.std.specs.List.{find};
ghost use Rattle.std.specs.Option.{is_none};
ghost use Rattle.mesh_data.specs.Edits.{collapse_verdict_by, edge_line, first_line, flip_verdict, folds_with, if_any, move_verdict, pair_lines};
ghost use Rattle.mesh_data.specs.Links.{is_closed_by_three, link_violation, opposites};
ghost use Rattle.mesh_data.specs.Rings.{has_closed_ring};
ghost use Rattle.mesh_data.specs.declared.edits.Reply.TheVariants.{Border, Closed, Dear, Done, DoneAt, Folds, Link};
ghost use Rattle.edit_steps.specs.Lines.{refusal};
ghost use Rattle.edit_steps.specs.Passed.{PairPassed};

use crate::mesh_view::MeshView;
use mesh_data::{Name, Reply};
use oemm_octree::Point;
use std::alloc::{AllocError, Global};

/// What a move answers. It takes no memory.
pub fn move_reply<V: MeshView>(view: &V, v: Name, to: &Point) -> Reply
    ensures { result ≡ move_verdict (V.inside view.now) (V.mesh view.now) v to.now }
{
    if !view.is_held(v) {
        Reply::Unheld(v)
    } else if !view.is_free(v) {
        Reply::Frozen(v)
    } else if !view.holds(to) {
        Reply::Outside
    } else {
        Reply::Done
    }
}

/// What an edit of two vertices answers that aren't two free ones with an edge between them.
fn pair_refusal<V: MeshView>(view: &V, u: Name, v: Name) -> Option<Reply>
    ensures { result ≡ refusal (pair_lines (V.inside view.now) (V.mesh view.now) u v) }
{
    if !view.is_held(u) {
        Some(Reply::Unheld(u))
    } else if !view.is_held(v) {
        Some(Reply::Unheld(v))
    } else if u == v {
        Some(Reply::Same)
    } else if !view.is_free(u) {
        Some(Reply::Frozen(u))
    } else if !view.is_free(v) {
        Some(Reply::Frozen(v))
    } else if !view.are_neighbours(u, v) {
        Some(Reply::Apart)
    } else {
        None
    }
}

/// What a collapse answers that would change the surface's topology.
fn link_refusal<V: MeshView>(
    view: &V,
    alloc: Global,
    u: Name,
    v: Name,
) -> Result<Option<Reply>, AllocError>
    requires { PairPassed (V.inside view.now) (V.mesh view.now) u v }
    ensures { IfOk result (λ r. r ≡ refusal (
        (not (has_closed_ring (V.mesh view.now).tris u), Border)
        ∷ if_any Link (link_violation (V.mesh view.now).tris u v)
        ∷ (is_closed_by_three (V.mesh view.now).tris u && is_closed_by_three (V.mesh view.now).tris v, Closed)
        ∷ [])) }
{
    if !view.has_closed_ring(alloc, u)? {
        return Ok(Some(Reply::Border));
    }
    if let Some(w) = view.link_violation(alloc, u, v)? {
        return Ok(Some(Reply::Link(w)));
    }
    if view.is_closed_by_three(alloc, u)? && view.is_closed_by_three(alloc, v)? {
        return Ok(Some(Reply::Closed));
    }
    Ok(None)
}

/// What a collapse answers that the topology allows.
fn price_reply<V: MeshView>(
    view: &V,
    alloc: Global,
    u: Name,
    v: Name,
    max: i128,
) -> Result<Reply, AllocError>
    requires { PairPassed (V.inside view.now) (V.mesh view.now) u v }
    ensures { IfOk result (λ r. r ≡ first_line (
        if_any Folds (find (folds_with (V.mesh view.now) u v) (V.mesh view.now).tris)
        ∷ (not (int_le (V.price view.now u v) max), Dear (V.price view.now u v))
        ∷ []) (DoneAt (V.price view.now u v))) }
{
    if let Some(t) = view.first_folding(alloc, u, v)? {
        return Ok(Reply::Folds(t));
    }
    let cost = view.cost(u, v);
    if cost > max {
        Ok(Reply::Dear(cost))
    } else {
        Ok(Reply::DoneAt(cost))
    }
}

/// What a collapse of `u` onto `v` answers that may cost so much.
///
/// # Errors
/// Want of memory, and only for two free vertices with an edge between them.
pub fn collapse_reply<V: MeshView>(
    view: &V,
    alloc: Global,
    u: Name,
    v: Name,
    max: i128,
) -> Result<Reply, AllocError>
    ensures reply { IfOk result (λ r. r
        ≡ collapse_verdict_by (V.price view.now u v) (V.inside view.now) (V.mesh view.now) u v max) }
    ensures memory { OnErr result (refusal (pair_lines (V.inside view.now) (V.mesh view.now) u v) ≡ None) }
{
    if let Some(reply) = pair_refusal(view, u, v) {
        return Ok(reply);
    }
    if let Some(reply) = link_refusal(view, alloc, u, v)? {
        return Ok(reply);
    }
    let reply = price_reply(view, alloc, u, v, max)?;
    Ok(reply)
}

/// What a flip answers whose two vertices are free and have an edge between them.
fn turn_reply<V: MeshView>(view: &V, a: Name, b: Name) -> Reply
    requires { PairPassed (V.inside view.now) (V.mesh view.now) a b }
    ensures { result ≡ first_line (
        (is_none (opposites (V.mesh view.now).tris a b), Border)
        ∷ edge_line (V.mesh view.now).tris (opposites (V.mesh view.now).tris a b)
        ∷ []) Done }
{
    let Some((c, d)) = view.opposites(a, b) else {
        return Reply::Border;
    };
    if view.are_neighbours(c, d) {
        Reply::Edge(c.min(d), c.max(d))
    } else {
        Reply::Done
    }
}

/// What a flip of the edge of `a` and `b` answers. It takes no memory.
pub fn flip_reply<V: MeshView>(view: &V, a: Name, b: Name) -> Reply
    ensures { result ≡ flip_verdict (V.inside view.now) (V.mesh view.now) a b }
{
    match pair_refusal(view, a, b) {
        Some(reply) => reply,
        None => turn_reply(view, a, b),
    }
}
