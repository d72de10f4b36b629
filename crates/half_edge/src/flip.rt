//! The flip of an edge.

ghost use Rattle.std.specs.Prelude.{◌≡◌};
ghost use Rattle.mesh_data.specs.Edits.{flipped_tris};
ghost use Rattle.half_edge.specs.Halves.{at, altered, reset, IsSound, faces_of};
ghost use Rattle.half_edge.specs.Collapses.{cut_keys};
ghost use Rattle.half_edge.specs.Flips.{CanFlip, slot_flipped};

use crate::collapse::cut_keys;
use crate::surgery::Half;
use mesh_data::{Name, Tri};
use slab::Slab;

/// Gives the half-edge at a key, if there is one, another triangle, and leaves its twin.
fn reset(halves: &mut Slab<Half>, k: usize, face: Tri, lead: bool, next: usize)
    ensures { (j : _) → at halves.new.slots j ≡ altered k (reset face lead next) j (at halves.old.slots j) }
{
    if let Some(half) = halves.get_mut(k) {
        half.face = face;
        half.lead = lead;
        half.next = next;
    }
}

/// Turns the edge from a to b, at e, with the opposite names c and d.
fn turn_edge(halves: &mut Slab<Half>, e: usize, a: Name, b: Name, c: Name, d: Name)
    requires { CanFlip halves.old.slots a b c d e }
    ensures { (j : _) → at halves.new.slots j
        ≡ slot_flipped a b c d (cut_keys halves.old.slots e) j (at halves.old.slots j) }
{
    let keys = cut_keys(halves, e);
    reset(halves, keys.n, Tri { a, b: d, c }, true, keys.e);
    reset(halves, keys.e, Tri { a: d, b: c, c: a }, false, keys.g);
    reset(halves, keys.g, Tri { a: c, b: a, c: d }, false, keys.n);
    reset(halves, keys.o, Tri { a: d, b, c }, true, keys.f);
    reset(halves, keys.f, Tri { a: b, b: c, c: d }, false, keys.m);
    reset(halves, keys.m, Tri { a: c, b: d, c: b }, false, keys.o);
}

/// Flips the edge from a to b, at e, with the opposite names c and d.
pub(crate) fn flip_at(halves: &mut Slab<Half>, e: usize, a: Name, b: Name, c: Name, d: Name)
    requires { CanFlip halves.old.slots a b c d e }
    ensures after { (j : _) → at halves.new.slots j
        ≡ slot_flipped a b c d (cut_keys halves.old.slots e) j (at halves.old.slots j) }
    ensures sound { IsSound halves.new.slots }
    ensures faces { faces_of halves.new.slots ≡ flipped_tris a b c d (faces_of halves.old.slots) }
{
    turn_edge(halves, e, a, b, c, d);
}
