//! One turn of a simplification.

ghost use Rattle.std.specs.Prelude.{◌≡◌, ◌+◌, ◌≤◌, ℕ, IfOk, OnOk};
ghost use Rattle.queued_simplify.specs.Errors.{collapse_reply, contracted};
ghost use Rattle.mesh_data.specs.declared.edits.Reply.TheVariants.{DoneAt};
ghost use Rattle.queued_simplify.specs.Turns.{IsFit, IsInOrder, IsReady, IsReadyBut};

use crate::around::names_around;
use crate::mesh::Simplifiable;
use crate::refresh::{clear_all, fill, restamp_all};
use collapse_queue::{Queue, Stamps};
use mesh_data::{Name, Step};
use std::alloc::{AllocError, Global};

/// Lists of names that each turn uses again.
#[derive(Drop)]
pub(crate) struct Lists {
    ring: Vec<Name>,
    pub(crate) near: Vec<Name>,
    names: Vec<Name>,
}

impl Lists {
    /// Empty lists.
    pub(crate) fn new(alloc: Global) -> Lists {
        Lists {
            ring: Vec::new(alloc),
            near: Vec::new(alloc),
            names: Vec::new(alloc),
        }
    }
}

/// Makes a collapse that was taken out of the queue, and puts the pairs whose prices or triangles it changed into the
/// queue again.
pub(crate) fn turn<M: Simplifiable>(
    mesh: &mut M,
    alloc: Global,
    queue: &mut Queue,
    refused: &mut Stamps,
    lists: &mut Lists,
    step: &Step,
    stamp: u64,
    max: i128,
) -> Result<(), AllocError>
    requires order { IsInOrder (M.seen mesh.old).mesh }
    requires done { collapse_reply (M.inside mesh.old) (M.seen mesh.old) step.now.u step.now.v max ≡ DoneAt step.now.cost }
    requires ready { IsReadyBut (λ x. x ≡ step.now.u) (M.inside mesh.old) max (M.seen mesh.old) queue.old refused.old }
    requires fit { IsFit (M.inside mesh.old) (M.seen mesh.old).mesh stamp queue.old }
    ensures made { OnOk result (mesh.new ≡ M.collapsed mesh.old step.now.u step.now.v) }
    ensures rest { M.rest mesh.new ≡ M.rest mesh.old }
    ensures mesh { OnOk result (M.seen mesh.new ≡ contracted (M.seen mesh.old) step.now.u step.now.v) }
    ensures area { OnOk result (M.inside mesh.new ≡ M.inside mesh.old) }
    ensures ready { OnOk result (IsReady (M.inside mesh.new) max (M.seen mesh.new) queue.new refused.new) }
    ensures fit { OnOk result (IsFit (M.inside mesh.new) (M.seen mesh.new).mesh (stamp + 1) queue.new) }
{
    mesh.held_around(step.u, &mut lists.ring)?;
    mesh.collapse(alloc, step.u, step.v)?;
    names_around(
        mesh,
        step.v,
        &lists.ring,
        refused,
        &mut lists.near,
        &mut lists.names,
    )?;
    queue.restamp(step.u, stamp);
    restamp_all(queue, &lists.names, stamp);
    clear_all(refused, &lists.names);
    fill(mesh, queue, &lists.names, &mut lists.near, stamp, max)?;
    Ok(())
}
