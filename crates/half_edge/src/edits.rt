//! A collapse and a flip, in the half-edges and in the half-edges of held names.

ghost use Rattle.std.specs.Prelude.{◌≡◌, ◌==◌, ◌&&◌, ℕ, IsSome, Some, not};
ghost use Rattle.std.specs.BTreeMap.{keys};
ghost use Rattle.mesh_data.specs.Edits.{collapsed_tris, flipped_tris};
ghost use Rattle.mesh_data.specs.Links.{opposites};
ghost use Rattle.mesh_data.specs.RingChanges.{MayCollapse};
ghost use Rattle.oemm_lists.specs.Numbers.{among};
ghost use Rattle.half_edge.specs.Flips.{MayTurn};
ghost use Rattle.half_edge.specs.Halves.{faces_of};
ghost use Rattle.half_edge.specs.Meshes.{out_at, IsMesh};

use crate::collapse::{collapse_at, cut_keys, next_key};
use crate::edges::find_edge;
use crate::flip::flip_at;
use crate::outs::{out_at, set_out, take_name};
use crate::rounds::third_name;
use crate::surgery::Half;
use mesh_data::Name;
use slab::Slab;
use std::collections::BTreeMap;

/// Collapses u onto v in the half-edges and in the keys of held names.
pub(crate) fn collapse_parts(
    halves: &mut Slab<Half>,
    outs: &mut BTreeMap<Name, usize>,
    u: Name,
    v: Name,
)
    requires mesh { IsMesh halves.old.slots outs.old }
    requires may { MayCollapse (faces_of halves.old.slots) u v }
    requires held { IsSome (out_at outs.old v) }
    ensures mesh { IsMesh halves.new.slots outs.new }
    ensures faces { faces_of halves.new.slots ≡ collapsed_tris u v (faces_of halves.old.slots) }
    ensures held { (w : ℕ) → among w (keys outs.new) ≡ (among w (keys outs.old) && not (w == u)) }
{
    let Some(e) = find_edge(halves, out_at(outs, u), u, v) else {
        return;
    };
    let cut = cut_keys(halves, e);
    let a = third_name(halves, e);
    let b = third_name(halves, cut.m);
    let next = next_key(halves, cut.q);
    collapse_at(halves, e, u, v);
    take_name(outs, u);
    set_out(outs, v, cut.q);
    set_out(outs, a, next);
    set_out(outs, b, cut.t);
}

/// Flips the edge of a and b in the half-edges and in the keys of held names.
pub(crate) fn flip_parts(
    halves: &mut Slab<Half>,
    outs: &mut BTreeMap<Name, usize>,
    a: Name,
    b: Name,
)
    requires mesh { IsMesh halves.old.slots outs.old }
    requires may { MayTurn (faces_of halves.old.slots) a b }
    ensures mesh { IsMesh halves.new.slots outs.new }
    ensures faces { (c d : ℕ) → opposites (faces_of halves.old.slots) a b ≡ Some (c, d)
        → faces_of halves.new.slots ≡ flipped_tris a b c d (faces_of halves.old.slots) }
    ensures held { keys outs.new ≡ keys outs.old }
{
    let Some(e) = find_edge(halves, out_at(outs, a), a, b) else {
        return;
    };
    let cut = cut_keys(halves, e);
    let c = third_name(halves, e);
    let d = third_name(halves, cut.m);
    flip_at(halves, e, a, b, c, d);
    set_out(outs, a, cut.n);
    set_out(outs, b, cut.f);
}
