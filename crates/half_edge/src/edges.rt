//! The half-edge of a directed edge.

ghost use Rattle.std.specs.Prelude.{◌≡◌, ℕ, Bool, IfNone, IfSome, false, true};
ghost use Rattle.mesh_data.specs.Links.{apex};
ghost use Rattle.half_edge.specs.Halves.{at, Goes, IsSound, faces_of};
ghost use Rattle.half_edge.specs.Rings.{BeginsRing, IsRinged};

use crate::rounds::{around_key, first_round, second_name, third_name};
use crate::surgery::Half;
use mesh_data::Name;
use slab::Slab;

/// Whether the half-edge at a key goes from u to v.
fn goes(halves: &Slab<Half>, k: usize, u: Name, v: Name) -> bool
    ensures yes { result ≡ true → Goes halves.now.slots k u v }
    ensures no { result ≡ false → Goes halves.now.slots k u v → ⊥ }
{
    match halves.get(k) {
        Some(half) => half.face.a == u && half.face.b == v,
        None => false,
    }
}

/// The half-edge from u to v, if there is one, sought among all.
fn scan_edge(halves: &Slab<Half>, u: Name, v: Name) -> Option<usize>
    ensures found { IfSome result (λ k. Goes halves.now.slots k u v) }
    ensures none { IfNone result ((k : ℕ) → Goes halves.now.slots k u v → ⊥) }
{
    for k in 0..halves.capacity() {
        if goes(halves, k, u, v) {
            return Some(k);
        }
    }
    None
}

/// The half-edge from u to v, if there is one, sought round u, whose ring begins with the half-edge at `first`.
fn seek_edge(halves: &Slab<Half>, first: usize, u: Name, v: Name) -> Option<usize>
    requires sound { IsSound halves.now.slots }
    requires begins { (closed : Bool) × BeginsRing halves.now.slots u first closed }
    ensures found { IfSome result (λ k. Goes halves.now.slots k u v) }
    ensures none { IfNone result ((k : ℕ) → Goes halves.now.slots k u v → ⊥) }
{
    let home = second_name(halves, first);
    let mut key = Some(first);
    for _i in 0..halves.len() {
        let Some(k) = key else {
            return None;
        };
        if goes(halves, k, u, v) {
            return Some(k);
        }
        let next = third_name(halves, k);
        if next == home {
            return None;
        }
        key = around_key(halves, k);
    }
    None
}

/// The half-edge from u to v, if there is one. Where a half-edge from u is told, it takes time of about the number of
/// triangles at u, and else it looks at all half-edges.
pub(crate) fn find_edge(halves: &Slab<Half>, out: Option<usize>, u: Name, v: Name) -> Option<usize>
    requires sound { IsSound halves.now.slots }
    requires ringed { IfSome out (IsRinged halves.now.slots u) }
    ensures found { IfSome result (λ k. Goes halves.now.slots k u v) }
    ensures none { IfNone result ((k : ℕ) → Goes halves.now.slots k u v → ⊥) }
{
    match out {
        Some(home) => {
            let (first, _) = first_round(halves, home, u);
            seek_edge(halves, first, u, v)
        }
        None => scan_edge(halves, u, v),
    }
}

/// The third name of the triangle with the edge from a to b, if there is one. Where a half-edge from a is told, it
/// takes time of about the number of triangles at a, and else it looks at all half-edges.
pub(crate) fn apex_from(halves: &Slab<Half>, out: Option<usize>, a: Name, b: Name) -> Option<Name>
    requires sound { IsSound halves.now.slots }
    requires ringed { IfSome out (IsRinged halves.now.slots a) }
    ensures { result ≡ apex (faces_of halves.now.slots) a b }
{
    match find_edge(halves, out, a, b) {
        Some(k) => Some(third_name(halves, k)),
        None => None,
    }
}
