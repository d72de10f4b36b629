//! What replies say, one behind another.

ghost use Rattle.std.specs.Prelude.{◌≡◌, ◌++◌, true, OnOk};
ghost use Rattle.byte_grammar.specs.Calls.{Finds, Fills};
ghost use Rattle.leaf_codec.specs.Replies.{reply_bytes, FitsReply, is_reply, edge, simplified, reply};

use crate::steps::StepUnits;
use byte_grammar::{
    Stop, all_known, i128_at, number_at, put_all, put_i128, put_u8, put_u32, u8_at, u32_at,
    units_at,
};
use geometry_bytes::{face_at, name_known, put_face, tri_known};
use mesh_data::{Name, Reply};
use oemm_lists::List;
use std::alloc::{AllocError, Global};

/// The two names of a refused edge, and the bytes behind them.
#[tactic(auto, unfolding(crate::specs::Replies::edge))]
fn edge_at(bytes: &[u8]) -> Option<(Reply, &[u8])>
    ensures { Finds (λ x. (x.0, x.1.now)) result (edge bytes.now) }
{
    let (c, rest) = u32_at(bytes)?;
    let (d, rest) = u32_at(rest)?;
    Some((Reply::Edge(Name(c), Name(d)), rest))
}

/// What a simplification answered, and the bytes behind it.
#[tactic(auto, unfolding(crate::specs::Replies::simplified))]
fn simplified_at(alloc: Global, bytes: &[u8]) -> Result<(Reply, &[u8]), Stop>
    ensures { Fills (λ x. (x.0, x.1.now)) result (simplified bytes.now) }
{
    let (count, rest) = number_at(bytes)?;
    let (steps, rest) = units_at(alloc, &StepUnits, count, rest)?;
    let behind = rest.len();
    let (left, rest) = u32_at(rest).ok_or(Stop::Bad { left: behind })?;
    Ok((
        Reply::Simplified {
            steps: List::from_vec(steps),
            left,
        },
        rest,
    ))
}

/// A reply, and the bytes behind it.
#[tactic(auto, unfolding(crate::specs::Replies::reply))]
pub fn reply_at(alloc: Global, bytes: &[u8]) -> Result<(Reply, &[u8]), Stop>
    ensures { Fills (λ x. (x.0, x.1.now)) result (reply bytes.now) }
{
    let bad = Stop::Bad { left: bytes.len() };
    let (tag, rest) = u8_at(bytes).ok_or(bad)?;
    match tag {
        1 => {
            let (v, rest) = u32_at(rest).ok_or(bad)?;
            Ok((Reply::Unheld(Name(v)), rest))
        }
        2 => {
            let (v, rest) = u32_at(rest).ok_or(bad)?;
            Ok((Reply::Frozen(Name(v)), rest))
        }
        3 => {
            let (w, rest) = u32_at(rest).ok_or(bad)?;
            Ok((Reply::Link(Name(w)), rest))
        }
        4 => Ok((Reply::Same, rest)),
        5 => Ok((Reply::Apart, rest)),
        6 => Ok((Reply::Border, rest)),
        7 => Ok((Reply::Closed, rest)),
        8 => Ok((Reply::Outside, rest)),
        9 => Ok((Reply::Done, rest)),
        10 => {
            let Some((t, rest)) = face_at(rest) else {
                return Err(bad);
            };
            Ok((Reply::Folds(t), rest))
        }
        11 => {
            let (cost, rest) = i128_at(rest).ok_or(bad)?;
            Ok((Reply::Dear(cost), rest))
        }
        12 => {
            let (cost, rest) = i128_at(rest).ok_or(bad)?;
            Ok((Reply::DoneAt(cost), rest))
        }
        13 => match edge_at(rest) {
            Some((edge, rest)) => Ok((edge, rest)),
            None => Err(bad),
        },
        14 => simplified_at(alloc, rest),
        _ => Err(bad),
    }
}

/// Puts a reply at the end.
#[tactic(auto, using(byte_grammar::proofs::Items::always), unfolding(crate::specs::Replies::reply_bytes, crate::specs::Replies::is_reply))]
pub fn put_reply(out: &mut Vec<u8>, reply: &Reply) -> Result<(), AllocError>
    requires { is_reply reply.now ≡ true }
    ensures { OnOk result (out.new.items ≡ out.old.items ++ reply_bytes reply.now) }
{
    match reply {
        Reply::Unheld(v) => {
            put_u8(out, 1)?;
            put_u32(out, v.0)?;
        }
        Reply::Frozen(v) => {
            put_u8(out, 2)?;
            put_u32(out, v.0)?;
        }
        Reply::Link(w) => {
            put_u8(out, 3)?;
            put_u32(out, w.0)?;
        }
        Reply::Same => put_u8(out, 4)?,
        Reply::Apart => put_u8(out, 5)?,
        Reply::Border => put_u8(out, 6)?,
        Reply::Closed => put_u8(out, 7)?,
        Reply::Outside => put_u8(out, 8)?,
        Reply::Done => put_u8(out, 9)?,
        Reply::Folds(t) => {
            put_u8(out, 10)?;
            put_face(out, t)?;
        }
        Reply::Dear(cost) => {
            put_u8(out, 11)?;
            put_i128(out, *cost)?;
        }
        Reply::DoneAt(cost) => {
            put_u8(out, 12)?;
            put_i128(out, *cost)?;
        }
        Reply::Edge(c, d) => {
            put_u8(out, 13)?;
            put_u32(out, c.0)?;
            put_u32(out, d.0)?;
        }
        Reply::Simplified { steps, left } => {
            put_u8(out, 14)?;
            put_u32(out, steps.len() as u32)?;
            put_all::<StepUnits>(out, steps.slice())?;
            put_u32(out, *left)?;
        }
    }
    Ok(())
}

/// That the numbers of a reply fit their types.
#[tactic(auto, using(byte_grammar::proofs::Items::always), unfolding(crate::specs::Replies::is_reply))]
pub fn reply_known(reply: &Reply)
    requires { is_reply reply.now ≡ true }
    ensures { FitsReply reply.now }
{
    match reply {
        Reply::Unheld(v) => name_known(v),
        Reply::Frozen(v) => name_known(v),
        Reply::Link(w) => name_known(w),
        Reply::Folds(t) => tri_known(t),
        Reply::Dear(cost) => {
            let _cost = *cost;
        }
        Reply::DoneAt(cost) => {
            let _cost = *cost;
        }
        Reply::Edge(c, d) => {
            name_known(c);
            name_known(d);
        }
        Reply::Simplified { steps, left } => {
            all_known::<StepUnits>(steps.slice());
            let _left = *left;
        }
        Reply::Same => {}
        Reply::Apart => {}
        Reply::Border => {}
        Reply::Closed => {}
        Reply::Outside => {}
        Reply::Done => {}
    }
}
