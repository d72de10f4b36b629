//! The ring round a name.

ghost use Rattle.std.specs.Prelude.{◌≡◌, ℕ, IfOk};
ghost use Rattle.mesh_data.specs.Rings.{IsRing};
ghost use Rattle.half_edge.specs.Halves.{at, next_key, twin_key, around, faces_of, IsSound};
ghost use Rattle.half_edge.specs.Rings.{back_key, BeginsRing, IsRinged, second_name, third_name};

use crate::collapse::{next_key, twin_key};
use crate::ring::NAMES_IN_PLACE;
use crate::surgery::Half;
use mesh_data::Name;
use slab::Slab;
use smallvec::SmallVec;
use std::alloc::{AllocError, Global};

/// The key of the half-edge before k round its first name.
fn back_key(halves: &Slab<Half>, k: usize) -> Option<usize>
    ensures { result ≡ back_key halves.now.slots k }
{
    let twin = twin_key(halves, k)?;
    Some(next_key(halves, twin))
}

/// The key of the half-edge behind k round its first name.
pub(crate) fn around_key(halves: &Slab<Half>, k: usize) -> Option<usize>
    ensures { result ≡ around halves.now.slots k }
{
    let second = next_key(halves, k);
    let third = next_key(halves, second);
    twin_key(halves, third)
}

/// The first half-edge round a name, one of whose half-edges is at `home`, and whether its ring is closed.
pub(crate) fn first_round(halves: &Slab<Half>, home: usize, v: Name) -> (usize, bool)
    requires { IsRinged halves.now.slots v home }
    ensures { BeginsRing halves.now.slots v result.0 result.1 }
{
    let mut k = home;
    for _i in 0..halves.len() {
        let Some(before) = back_key(halves, k) else {
            return (k, false);
        };
        if before == home {
            return (home, true);
        }
        k = before;
    }
    (home, true)
}

/// The second name of a half-edge's triangle.
pub(crate) fn second_name(halves: &Slab<Half>, k: usize) -> Name
    ensures { result ≡ second_name halves.now.slots k }
{
    match halves.get(k) {
        Some(half) => half.face.b,
        None => Name(0),
    }
}

/// The third name of a half-edge's triangle.
pub(crate) fn third_name(halves: &Slab<Half>, k: usize) -> Name
    ensures { result ≡ third_name halves.now.slots k }
{
    match halves.get(k) {
        Some(half) => half.face.c,
        None => Name(0),
    }
}

/// The names of the ring of v that begins with the half-edge at `first`.
pub(crate) fn names_round(
    alloc: Global,
    halves: &Slab<Half>,
    first: usize,
    closed: bool,
    v: Name,
) -> Result<SmallVec<Name, NAMES_IN_PLACE>, AllocError>
    requires sound { IsSound halves.now.slots }
    requires begins { BeginsRing halves.now.slots v first closed }
    ensures { IfOk result (λ names. IsRing (faces_of halves.now.slots) v
        (record { names = names.items; closed = closed })) }
{
    let mut names = SmallVec::new(alloc);
    let home = second_name(halves, first);
    let mut name = home;
    let mut key = Some(first);
    for _i in 0..halves.len() {
        names.push(name)?;
        let Some(k) = key else {
            return Ok(names);
        };
        let next = third_name(halves, k);
        if next == home {
            return Ok(names);
        }
        name = next;
        key = around_key(halves, k);
    }
    Ok(names)
}
