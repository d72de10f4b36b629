//! The steps of a simplification.

ghost use Rattle.std.specs.Prelude.{◌≡◌, ◌++◌, true, OnOk};
ghost use Rattle.std.specs.List.{list_all};
ghost use Rattle.byte_grammar.specs.Calls.{Finds};
ghost use Rattle.byte_grammar.specs.Reader.{unit};
ghost use Rattle.byte_grammar.specs.Keeps.{IsAlways as Always};
ghost use Rattle.leaf_codec.specs.Replies.{step, step_bytes, is_cost, is_step, FitsStep};

use byte_grammar::{Stop, Units, i128_at, put_i128, put_u32, u32_at};
use geometry_bytes::name_known;
use mesh_data::{Name, Step};
use oemm_limits::MOST_COST;
use std::alloc::{AllocError, Global};

/// The number of bytes of a step.
const STEP_BYTES: usize = 24;

/// A step, and the bytes behind it.
#[tactic(auto, unfolding(crate::specs::Replies::step))]
fn step_at(bytes: &[u8]) -> Option<(Step, &[u8])>
    ensures { Finds (λ x. (x.0, x.1.now)) result (step bytes.now) }
{
    let (u, rest) = u32_at(bytes)?;
    let (v, rest) = u32_at(rest)?;
    let (cost, rest) = i128_at(rest)?;
    Some((
        Step {
            u: Name(u),
            v: Name(v),
            cost,
        },
        rest,
    ))
}

/// Whether a cost is one of a reply.
#[tactic(auto, unfolding(crate::specs::Replies::is_cost))]
pub fn is_cost(z: i128) -> bool
    ensures { result ≡ is_cost z }
{
    z.unsigned_abs() <= MOST_COST
}

/// Whether the costs of steps are those of a reply.
pub fn are_steps(steps: &[Step]) -> bool
    ensures { result ≡ list_all is_step steps.now }
{
    steps.iter().all(|s| is_cost(s.cost))
}

/// Puts a step at the end.
#[tactic(auto, unfolding(crate::specs::Replies::step_bytes))]
fn put_step(out: &mut Vec<u8>, step: &Step) -> Result<(), AllocError>
    ensures { OnOk result (out.new.items ≡ out.old.items ++ step_bytes step.now) }
{
    put_u32(out, step.u.0)?;
    put_u32(out, step.v.0)?;
    put_i128(out, step.cost)?;
    Ok(())
}

/// The steps of a simplification.
#[derive(Clone, Copy)]
pub struct StepUnits;

impl Units for StepUnits {
    type Item = Step;

    fn most(len: usize) -> usize {
        len / STEP_BYTES
    }

    ghost reading = { λ _ before. unit (λ s. true) step };

    ghost fits = { FitsStep };

    ghost sound = { Always };

    ghost spelled = { step_bytes };

    fn write(item: &Step, out: &mut Vec<u8>) -> Result<(), AllocError> {
        put_step(out, item)
    }

    fn known(item: &Step) {
        name_known(&item.u);
        name_known(&item.v);
        let _cost = item.cost;
    }

    fn read<'a>(
        &self,
        alloc: Global,
        before: &[Step],
        bytes: &'a [u8],
    ) -> Result<(Step, &'a [u8]), Stop> {
        let left = bytes.len();
        let Some((step, rest)) = step_at(bytes) else {
            return Err(Stop::Bad { left });
        };
        Ok((step, rest))
    }
}
