//! The lines of replies, without the two spaces in front of them.

ghost use Rattle.byte_grammar.specs.Calls.{Finds};
ghost use Rattle.journal_reader.specs.Lines.{edge, folded, named, pair, plain, reply, reply_line, stepped, triple, valued};

use crate::lines::JournalLine;
use crate::numbers::{cost_before, name_before};
use geometry_bytes::is_turned;
use mesh_data::{Name, Reply, Step, Tri};

/// A reply without a number, and the bytes behind its line.
#[tactic(auto, unfolding(crate::specs::Lines::plain))]
fn plain(bytes: &[u8]) -> Option<(Reply, &[u8])>
    ensures { Finds (λ x. (x.0, x.1.now)) result (plain bytes.now) }
{
    if let Some(rest) = bytes.strip_prefix(b"same\n") {
        Some((Reply::Same, rest))
    } else if let Some(rest) = bytes.strip_prefix(b"apart\n") {
        Some((Reply::Apart, rest))
    } else if let Some(rest) = bytes.strip_prefix(b"border\n") {
        Some((Reply::Border, rest))
    } else if let Some(rest) = bytes.strip_prefix(b"closed\n") {
        Some((Reply::Closed, rest))
    } else if let Some(rest) = bytes.strip_prefix(b"outside\n") {
        Some((Reply::Outside, rest))
    } else if let Some(rest) = bytes.strip_prefix(b"done\n") {
        Some((Reply::Done, rest))
    } else {
        None
    }
}

/// A reply with a name, and the bytes behind its line.
#[tactic(auto, unfolding(crate::specs::Lines::named))]
fn named(bytes: &[u8]) -> Option<(Reply, &[u8])>
    ensures { Finds (λ x. (x.0, x.1.now)) result (named bytes.now) }
{
    if let Some(rest) = bytes.strip_prefix(b"unheld ") {
        let (v, rest) = name_before(b"\n", rest)?;
        Some((Reply::Unheld(Name(v)), rest))
    } else if let Some(rest) = bytes.strip_prefix(b"frozen ") {
        let (v, rest) = name_before(b"\n", rest)?;
        Some((Reply::Frozen(Name(v)), rest))
    } else if let Some(rest) = bytes.strip_prefix(b"link ") {
        let (w, rest) = name_before(b"\n", rest)?;
        Some((Reply::Link(Name(w)), rest))
    } else {
        None
    }
}

/// Three names, and the bytes behind the line.
#[tactic(auto, unfolding(crate::specs::Lines::triple))]
fn triple(bytes: &[u8]) -> Option<(Tri, &[u8])>
    ensures { Finds (λ x. (x.0, x.1.now)) result (triple bytes.now) }
{
    let (a, rest) = name_before(b" ", bytes)?;
    let (b, rest) = name_before(b" ", rest)?;
    let (c, rest) = name_before(b"\n", rest)?;
    let (a, b, c) = (Name(a), Name(b), Name(c));
    Some((Tri { a, b, c }, rest))
}

/// What stands behind `folds`, and the bytes behind the line.
#[tactic(auto, unfolding(crate::specs::Lines::folded))]
fn folded(bytes: &[u8]) -> Option<(Reply, &[u8])>
    ensures { Finds (λ x. (x.0, x.1.now)) result (folded bytes.now) }
{
    match triple(bytes) {
        Some((t, rest)) => {
            if is_turned(&t) {
                Some((Reply::Folds(t), rest))
            } else {
                None
            }
        }
        None => None,
    }
}

/// Two names, and the bytes behind the line.
#[tactic(auto, unfolding(crate::specs::Lines::pair))]
fn pair(bytes: &[u8]) -> Option<((u32, u32), &[u8])>
    ensures { Finds (λ x. (x.0, x.1.now)) result (pair bytes.now) }
{
    let (c, rest) = name_before(b" ", bytes)?;
    let (d, rest) = name_before(b"\n", rest)?;
    Some(((c, d), rest))
}

/// What stands behind `edge`, and the bytes behind the line.
#[tactic(auto, unfolding(crate::specs::Lines::edge))]
fn edge(bytes: &[u8]) -> Option<(Reply, &[u8])>
    ensures { Finds (λ x. (x.0, x.1.now)) result (edge bytes.now) }
{
    let ((c, d), rest) = pair(bytes)?;
    if c < d {
        Some((Reply::Edge(Name(c), Name(d)), rest))
    } else {
        None
    }
}

/// A reply with several names or a cost, and the bytes behind its line.
#[tactic(auto, unfolding(crate::specs::Lines::valued))]
fn valued(bytes: &[u8]) -> Option<(Reply, &[u8])>
    ensures { Finds (λ x. (x.0, x.1.now)) result (valued bytes.now) }
{
    if let Some(rest) = bytes.strip_prefix(b"folds ") {
        folded(rest)
    } else if let Some(rest) = bytes.strip_prefix(b"edge ") {
        edge(rest)
    } else if let Some(rest) = bytes.strip_prefix(b"dear ") {
        let (cost, rest) = cost_before(b"\n", rest)?;
        Some((Reply::Dear(cost), rest))
    } else if let Some(rest) = bytes.strip_prefix(b"done ") {
        let (cost, rest) = cost_before(b"\n", rest)?;
        Some((Reply::DoneAt(cost), rest))
    } else {
        None
    }
}

/// What stands behind the `collapse` of a step, and the bytes behind the line.
#[tactic(auto, unfolding(crate::specs::Lines::stepped))]
fn stepped(bytes: &[u8]) -> Option<(Step, &[u8])>
    ensures { Finds (λ x. (x.0, x.1.now)) result (stepped bytes.now) }
{
    let (u, rest) = name_before(b" ", bytes)?;
    let (v, rest) = name_before(b" ", rest)?;
    let (cost, rest) = cost_before(b"\n", rest)?;
    let (u, v) = (Name(u), Name(v));
    Some((Step { u, v, cost }, rest))
}

/// A reply that is one line, and the bytes behind it.
#[tactic(auto, unfolding(crate::specs::Lines::reply))]
fn reply(bytes: &[u8]) -> Option<(Reply, &[u8])>
    ensures { Finds (λ x. (x.0, x.1.now)) result (reply bytes.now) }
{
    if let Some(found) = plain(bytes) {
        Some(found)
    } else if let Some(found) = named(bytes) {
        Some(found)
    } else {
        valued(bytes)
    }
}

/// A line of a reply, and the bytes behind it.
#[tactic(auto, unfolding(crate::specs::Lines::reply_line))]
pub fn reply_at(bytes: &[u8]) -> Option<(JournalLine, &[u8])>
    ensures { Finds (λ x. (x.0, x.1.now)) result (reply_line bytes.now) }
{
    if let Some(rest) = bytes.strip_prefix(b"collapse ") {
        match stepped(rest) {
            Some((step, rest)) => Some((JournalLine::StepLine { step }, rest)),
            None => None,
        }
    } else if let Some(rest) = bytes.strip_prefix(b"simplified ") {
        let (left, rest) = name_before(b"\n", rest)?;
        Some((JournalLine::LeftLine { left }, rest))
    } else {
        match reply(bytes) {
            Some((reply, rest)) => Some((JournalLine::ReplyLine { reply }, rest)),
            None => None,
        }
    }
}
