//! Names stamped anew, and pairs put into a queue again.

ghost use Rattle.std.specs.Prelude.{◌≡◌, ◌<◌, ℕ, true, OnOk};
ghost use Rattle.std.specs.FinMap as finite;
ghost use Rattle.std.specs.List.Sorted.{IsStrictlyIncreasing};
ghost use Rattle.oemm_lists.specs.Numbers.{among};
ghost use Rattle.mesh_data.specs.Edits.{is_held};
ghost use Rattle.collapse_queue.specs.Candidates.{stamp_in};
ghost use Rattle.collapse_queue.specs.Queues.{HasRoom};
ghost use Rattle.queued_simplify.specs.Filled.{AreStamped, IsFilled, all_of, offered};
ghost use Rattle.queued_simplify.specs.Rooms.{IsRoomy};
ghost use Rattle.queued_simplify.specs.Served.{IsPair};
ghost use Rattle.queued_simplify.specs.Turns.{IsCleared, IsRestamped};

use crate::mesh::Simplifiable;
use collapse_queue::{Candidate, Queue, Stamps};
use mesh_data::Name;
use std::alloc::AllocError;

/// Gives each of these names the stamp.
pub(crate) fn restamp_all(queue: &mut Queue, names: &[Name], stamp: u64)
    requires once { IsStrictlyIncreasing names.now }
    requires keys { (x : ℕ) → among x names.now ≡ true → finite.contains_key queue.old.stamps x ≡ true }
    requires later { (x : ℕ) → among x names.now ≡ true → stamp_in queue.old.stamps x < stamp }
    ensures { IsRestamped names.now stamp queue.old queue.new }
{
    for name in names {
        queue.restamp(*name, stamp);
    }
}

/// Forgets which collapses of these names were refused.
pub(crate) fn clear_all(refused: &mut Stamps, names: &[Name])
    requires { (x : ℕ) → among x names.now ≡ true → finite.contains_key refused.old x ≡ true }
    ensures { IsCleared names.now refused.old refused.new }
{
    for name in names {
        refused.set(*name, 0);
    }
}

/// Puts the pair into the queue at its price, if that isn't too much.
fn offer<M: Simplifiable>(mesh: &M, queue: &mut Queue, u: Name, v: Name, stamp: u64, max: i128)
    requires pair { IsPair (M.inside mesh.now) (M.seen mesh.now).mesh u v }
    requires room { HasRoom queue.old }
    ensures { queue.new ≡ offered (M.seen mesh.now) max stamp u v queue.old }
{
    let cost = mesh.cost(u, v);
    if cost <= max {
        queue.push(Candidate { cost, u, v, stamp });
    }
}

/// Puts the pairs of these names into the queue.
pub(crate) fn fill<M: Simplifiable>(
    mesh: &M,
    queue: &mut Queue,
    names: &[Name],
    near: &mut Vec<Name>,
    stamp: u64,
    max: i128,
) -> Result<(), AllocError>
    requires once { IsStrictlyIncreasing names.now }
    requires held { (x : ℕ) → among x names.now ≡ true → is_held (M.inside mesh.now) (M.seen mesh.now).mesh x ≡ true }
    requires stamped { AreStamped names.now stamp queue.old }
    requires roomy { IsRoomy (M.inside mesh.now) (M.seen mesh.now).mesh queue.old }
    ensures { OnOk result
        (IsFilled (M.inside mesh.now) max (M.seen mesh.now) (all_of names.now) stamp queue.old queue.new) }
{
    for name in names {
        mesh.held_around(*name, near)?;
        for other in near.iter() {
            offer(mesh, queue, *name, *other, stamp, max);
        }
    }
    Ok(())
}
