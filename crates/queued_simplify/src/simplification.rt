//! Simplification.

ghost use Rattle.std.specs.Prelude.{◌≡◌, ◌≤◌, length, IfOk, OnOk};
ghost use Rattle.queued_simplify.specs.Errors.{contracted_by, made_by};
ghost use Rattle.queued_simplify.specs.LeastSteps.{AreLeastStepsBy};
ghost use Rattle.queued_simplify.specs.Turns.{IsFit, IsInOrder, IsReady};

use crate::mesh::Simplifiable;
use crate::refresh::fill;
use crate::steps::next_step;
use crate::turn::{Lists, turn};
use collapse_queue::{Queue, Stamps};
use mesh_data::{Name, Steps};
use oemm_limits::MOST_ITEMS;
use oemm_lists::List;
use std::alloc::{AllocError, Global};

/// The pairs of a mesh that a queue has room for, for each of its triangles: both directions of its three edges.
const PAIRS: u32 = 6;

/// A queue with the pairs of a mesh.
fn queue_for<M: Simplifiable>(
    mesh: &M,
    alloc: Global,
    near: &mut Vec<Name>,
    max: i128,
) -> Result<(Queue, Stamps), AllocError>
    requires { length (M.seen mesh.now).mesh.tris ≤ MOST_ITEMS }
    ensures ready { IfOk result (λ made. IsReady (M.inside mesh.now) max (M.seen mesh.now) made.0 made.1) }
    ensures fit { IfOk result (λ made. IsFit (M.inside mesh.now) (M.seen mesh.now).mesh 1 made.0) }
{
    let names = mesh.held(alloc)?;
    let mut queue = Queue::with_room(alloc, PAIRS * mesh.tri_count(), &names)?;
    let refused = Stamps::for_names(alloc, &names)?;
    fill(mesh, &mut queue, names.slice(), near, 0, max)?;
    Ok((queue, refused))
}

/// Makes the cheapest collapse that can be made, again and again, as long as more triangles than the target have all
/// three vertices held: each step is the least of all collapses that can be made at its moment, by its cost and then by
/// its names. For a mesh of n triangles it takes time of about n log n at the start, and of about log n for each pair
/// that a step brings near. After an error the mesh may have been changed by some of the steps.
///
/// # Errors
/// Want of memory.
pub fn simplify<M: Simplifiable>(
    mesh: &mut M,
    alloc: Global,
    max: i128,
    target: u32,
) -> Result<Steps, AllocError>
    requires order { IsInOrder (M.seen mesh.old).mesh }
    requires few { length (M.seen mesh.old).mesh.tris ≤ MOST_ITEMS }
    ensures steps { IfOk result (λ steps. AreLeastStepsBy (M.inside mesh.old) (M.seen mesh.old) max target steps) }
    ensures made { IfOk result (λ steps. mesh.new ≡ made_by M.collapsed mesh.old steps) }
    ensures rest { M.rest mesh.new ≡ M.rest mesh.old }
    ensures mesh { IfOk result (λ steps. M.seen mesh.new ≡ contracted_by (M.seen mesh.old) steps) }
    ensures area { OnOk result (M.inside mesh.new ≡ M.inside mesh.old) }
{
    let mut lists = Lists::new(alloc);
    let (mut queue, mut refused) = queue_for(mesh, alloc, &mut lists.near, max)?;
    let mut steps = Vec::new(alloc);
    while mesh.whole_count() > target as usize {
        let Some(step) = next_step(mesh, alloc, &mut queue, &mut refused, max)? else {
            break;
        };
        steps.push(step)?;
        let stamp = steps.len() as u64;
        turn(
            mesh,
            alloc,
            &mut queue,
            &mut refused,
            &mut lists,
            &step,
            stamp,
            max,
        )?;
    }
    Ok(List::from_vec(steps))
}
