//! Small changes of half-edges in a slab.

ghost use Rattle.std.specs.Prelude.{◌≡◌, ◌≢◌, ◌==◌, [], ◌∷◌, Some, None, IfSome, if◌then◌else◌};
ghost use Rattle.std.specs.Option.{option_map, option_copied};
ghost use Rattle.slab.specs.Slab.{get, ContainsKey};
ghost use Rattle.half_edge.specs.Halves.{at, altered, with_twin, with_put, dropped, joined, next_key, three, around};
ghost use Rattle.half_edge.specs.Halves.{put_in, all_put, IsSound, IsRound};

use mesh_data::{Name, Tri};
use slab::Slab;
use triangle_edits::substituted;

/// A half-edge: the edge of its triangle that begins at the first name, with the triangle from there on.
#[derive(Clone, Copy, Debug)]
pub(crate) struct Half {
    pub face: Tri,
    /// Of the three half-edges of a triangle one stands for it.
    pub lead: bool,
    /// The half-edge of the same triangle that begins at the second name.
    pub next: usize,
    /// The half-edge of the edge from its other end, if a triangle has it.
    pub twin: Option<usize>,
}

/// Gives a half-edge another twin.
pub(crate) fn set_twin(halves: &mut Slab<Half>, k: usize, twin: Option<usize>)
    requires { ContainsKey halves.old k }
    ensures { (j : _) → at halves.new.slots j ≡ altered k (with_twin twin) j (at halves.old.slots j) }
{
    halves[k].twin = twin;
}

/// Puts v for u in the triangle of a half-edge.
pub(crate) fn put_at(halves: &mut Slab<Half>, k: usize, u: Name, v: Name)
    requires { ContainsKey halves.old k }
    ensures { (j : _) → at halves.new.slots j ≡ altered k (with_put u v) j (at halves.old.slots j) }
{
    let face = substituted(u, v, &halves[k].face);
    halves[k].face = face;
}

/// Makes the half-edges at `p`, if there is one, and at `q` each other's twins.
pub(crate) fn join(halves: &mut Slab<Half>, p: Option<usize>, q: usize)
    requires at_q { ContainsKey halves.old q }
    requires at_p { IfSome p (ContainsKey halves.old) }
    ensures { (j : _) → at halves.new.slots j ≡ joined p q j (at halves.old.slots j) }
{
    set_twin(halves, q, p);
    if let Some(k) = p {
        set_twin(halves, k, Some(q));
    }
}

/// Drops three half-edges.
pub(crate) fn drop_three(halves: &mut Slab<Half>, k: usize, l: usize, m: usize)
    ensures { (j : _) → at halves.new.slots j ≡ dropped (k ∷ l ∷ m ∷ []) j (at halves.old.slots j) }
{
    halves.try_remove(k);
    halves.try_remove(l);
    halves.try_remove(m);
}

/// Puts v for u in the triangle of a half-edge, and gives the key of the next half-edge round its first name.
pub(crate) fn put_face(halves: &mut Slab<Half>, k: usize, u: Name, v: Name) -> Option<usize>
    requires differ { u ≢ v }
    requires first { ContainsKey halves.old k }
    requires second { ContainsKey halves.old (next_key halves.old.slots k) }
    requires third { ContainsKey halves.old (next_key halves.old.slots (next_key halves.old.slots k)) }
    ensures put { (j : _) → at halves.new.slots j ≡ put_in (three halves.old.slots k) u v j (at halves.old.slots j) }
    ensures next { result ≡ around halves.old.slots k }
{
    let second = halves[k].next;
    let third = halves[second].next;
    let next = halves[third].twin;
    put_at(halves, k, u, v);
    put_at(halves, second, u, v);
    put_at(halves, third, u, v);
    next
}

/// Puts v for u in all triangles round u, from the half-edge at `home` on.
pub(crate) fn put_round(halves: &mut Slab<Half>, home: usize, u: Name, v: Name)
    requires differ { u ≢ v }
    requires sound { IsSound halves.old.slots }
    requires round { IsRound halves.old.slots home u }
    ensures { (j : _) → at halves.new.slots j ≡ all_put u v (at halves.old.slots j) }
{
    let mut k = home;
    for _i in 0..halves.len() {
        let Some(next) = put_face(halves, k, u, v) else {
            return;
        };
        if next == home {
            return;
        }
        k = next;
    }
}
