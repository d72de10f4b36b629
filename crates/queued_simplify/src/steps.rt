//! The next step of a simplification.

ghost use Rattle.std.specs.Prelude.{◌≡◌, ◌≢◌, ℕ, true, IfOk, OnOk, OnSome};
ghost use Rattle.std.specs.FinMap as finite;
ghost use Rattle.collapse_queue.specs.Candidates.{stamp_in};
ghost use Rattle.queued_simplify.specs.Turns.{IsFit, IsNext, IsReady, is_priced, is_refused};

use crate::mesh::Simplifiable;
use collapse_queue::{Queue, Stamps};
use mesh_data::{Reply, Step};
use std::alloc::{AllocError, Global};

/// Whether a reply says that a collapse can be made.
fn is_priced(reply: &Reply) -> bool
    ensures { result ≡ is_priced reply.now }
{
    match reply {
        Reply::DoneAt(_) => true,
        _ => false,
    }
}

/// Takes items out up to the least collapse that can be made, and marks the names of which one was refused.
pub(crate) fn next_step<M: Simplifiable>(
    mesh: &M,
    alloc: Global,
    queue: &mut Queue,
    refused: &mut Stamps,
    max: i128,
) -> Result<Option<Step>, AllocError>
    requires { IsReady (M.inside mesh.now) max (M.seen mesh.now) queue.old refused.old }
    ensures next { IfOk result (λ step. IsNext (M.inside mesh.now) max (M.seen mesh.now) queue.new refused.new step) }
    ensures fit { (s : ℕ) → IsFit (M.inside mesh.now) (M.seen mesh.now).mesh s queue.old
        → OnOk result (IsFit (M.inside mesh.now) (M.seen mesh.now).mesh s queue.new) }
{
    while let Some(item) = queue.pop_least() {
        let reply = mesh.verdict(alloc, item.u, item.v, max)?;
        if is_priced(&reply) {
            return Ok(Some(Step {
                u: item.u,
                v: item.v,
                cost: item.cost,
            }));
        }
        refused.set(item.u, 1);
    }
    Ok(None)
}
