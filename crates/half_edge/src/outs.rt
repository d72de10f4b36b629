//! For each held name a half-edge from it.

ghost use Rattle.std.specs.Prelude.{◌≡◌, ◌==◌, ℕ, IfOk, IsSome, None, OnOk, Some, true, if◌then◌else◌};
ghost use Rattle.std.specs.BTreeMap.{keys};
ghost use Rattle.oemm_lists.specs.Numbers.{among};
ghost use Rattle.half_edge.specs.Halves.{at, Goes};
ghost use Rattle.half_edge.specs.Meshes.{out_at, set_at, IsFit};

use crate::surgery::Half;
use mesh_data::{Name, NameSet};
use slab::Slab;
use std::alloc::{AllocError, Global};
use std::collections::BTreeMap;

/// The key at a name.
pub(crate) fn out_at(outs: &BTreeMap<Name, usize>, v: Name) -> Option<usize>
    ensures { result ≡ out_at outs.now v }
{
    outs.get(&v).copied()
}

/// Puts another key at a name that is there.
pub(crate) fn set_out(outs: &mut BTreeMap<Name, usize>, v: Name, k: usize)
    ensures at { (w : ℕ) → out_at outs.new w ≡ set_at v k w (out_at outs.old w) }
    ensures keys { keys outs.new ≡ keys outs.old }
{
    if let Some(out) = outs.get_mut(&v) {
        *out = k;
    }
}

/// Takes a name away.
pub(crate) fn take_name(outs: &mut BTreeMap<Name, usize>, v: Name)
    ensures at { (w : ℕ) → out_at outs.new w ≡ (if w == v then None else out_at outs.old w) }
{
    outs.remove(&v);
}

/// Puts a key at a name.
pub(crate) fn put_out(outs: &mut BTreeMap<Name, usize>, v: Name, k: usize) -> Result<(), AllocError>
    ensures { OnOk result ((w : ℕ) → out_at outs.new w ≡ (if w == v then Some k else out_at outs.old w)) }
{
    outs.insert(v, k)?;
    Ok(())
}

/// For each held name that is in a triangle the key of a half-edge from it.
pub(crate) fn outs_of(
    alloc: Global,
    halves: &Slab<Half>,
    held: &NameSet,
) -> Result<BTreeMap<Name, usize>, AllocError>
    ensures fit { IfOk result (IsFit halves.now.slots) }
    ensures held { IfOk result (λ outs. (v k : ℕ) → out_at outs v ≡ Some k → among v held.now ≡ true) }
    ensures all { IfOk result (λ outs. (v k y : ℕ) → Goes halves.now.slots k v y → among v held.now ≡ true
        → IsSome (out_at outs v)) }
{
    let mut outs = BTreeMap::new(alloc);
    for k in 0..halves.capacity() {
        if let Some(half) = halves.get(k) {
            if held.has(half.face.a) {
                put_out(&mut outs, half.face.a, k)?;
            }
        }
    }
    Ok(outs)
}
