//! Replies beside their edits.

ghost use Rattle.std.specs.Prelude.{◌≡◌, true, List, length};
ghost use Rattle.mesh_data.specs.declared.edits.Reply.{Reply as Answer};
ghost use Rattle.byte_grammar.specs.Reader.{unit};
ghost use Rattle.leaf_codec.specs.Replies.{reply_bytes, FitsReply, is_reply, may_answer, reply_follows, reply};

use crate::formats::MOST_UNITS;
use crate::reply_fields::{put_reply, reply_at, reply_known};
use crate::steps::{are_steps, is_cost};
use byte_grammar::{Stop, Units};
use geometry_bytes::is_turned;
use mesh_data::{Edit, Edits, Reply};
use std::alloc::{AllocError, Global};

/// Whether an edit can have a reply of this kind.
#[tactic(auto, unfolding(crate::specs::Replies::may_answer))]
fn may_answer(edit: &Edit, reply: &Reply) -> bool
    ensures { result ≡ may_answer edit.now reply.now }
{
    match reply {
        Reply::Unheld(_) | Reply::Frozen(_) => !matches!(edit, Edit::Simplify { .. }),
        Reply::Link(_) | Reply::Closed | Reply::Folds(_) | Reply::Dear(_) | Reply::DoneAt(_) => {
            matches!(edit, Edit::Collapse { .. })
        }
        Reply::Same | Reply::Apart | Reply::Border => {
            matches!(edit, Edit::Collapse { .. } | Edit::Flip { .. })
        }
        Reply::Outside => matches!(edit, Edit::Move { .. }),
        Reply::Done => matches!(edit, Edit::Move { .. } | Edit::Flip { .. }),
        Reply::Edge(_, _) => matches!(edit, Edit::Flip { .. }),
        Reply::Simplified { .. } => matches!(edit, Edit::Simplify { .. }),
    }
}

/// Whether what a reply says is in order.
#[tactic(auto, unfolding(crate::specs::Replies::is_reply))]
fn is_reply(reply: &Reply) -> bool
    ensures { result ≡ is_reply reply.now }
{
    match reply {
        Reply::Folds(t) => is_turned(t),
        Reply::Dear(cost) => is_cost(*cost),
        Reply::DoneAt(cost) => is_cost(*cost),
        Reply::Edge(c, d) => c < d,
        Reply::Simplified { steps, .. } => steps.len() <= MOST_UNITS as usize
            && are_steps(steps.slice()),
        _ => true,
    }
}

/// Whether the reply may stand behind these.
#[tactic(auto, unfolding(crate::specs::Replies::reply_follows))]
fn follows(edits: &Edits, before: usize, reply: &Reply) -> bool
    ensures { (rs : List Answer) → length rs ≡ before → result ≡ reply_follows edits.now rs reply.now }
{
    if before < edits.len() {
        may_answer(edits.at(before), reply) && is_reply(reply)
    } else {
        false
    }
}

/// The replies to these edits.
#[derive(Drop)]
pub struct ReplyUnits {
    pub edits: Edits,
}

impl Units for ReplyUnits {
    type Item = Reply;

    fn most(len: usize) -> usize {
        len
    }

    ghost reading = { λ u before. unit (reply_follows u.edits before) reply };

    ghost fits = { FitsReply };

    ghost sound = { λ r. is_reply r ≡ true };

    ghost spelled = { reply_bytes };

    fn write(item: &Reply, out: &mut Vec<u8>) -> Result<(), AllocError> {
        put_reply(out, item)
    }

    fn known(item: &Reply) {
        reply_known(item);
    }

    fn read<'a>(
        &self,
        alloc: Global,
        before: &[Reply],
        bytes: &'a [u8],
    ) -> Result<(Reply, &'a [u8]), Stop> {
        let left = bytes.len();
        match reply_at(alloc, bytes) {
            Ok((reply, rest)) => {
                if follows(&self.edits, before.len(), &reply) {
                    Ok((reply, rest))
                } else {
                    Err(Stop::Bad { left })
                }
            }
            Err(Stop::Bad { .. }) => Err(Stop::Bad { left }),
            Err(Stop::Memory) => Err(Stop::Memory),
        }
    }
}
