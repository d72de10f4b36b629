//! The lines of an entry: its head, its edits and their replies.

ghost use Rattle.std.specs.Prelude.{◌≡◌, ◌++◌, map, OnOk};
ghost use Rattle.std.specs.Option.{option_copied};
ghost use Rattle.std.specs.String.{string_bytes};
ghost use Rattle.commit_journal.specs.Text.{edit_line, step_line, reply_lines, indented, answered_edit, answered_edits, head_line};

use mesh_data::{Edit, Entry, Reply, Step};
use std::alloc::AllocError;

fn put_edit(text: &mut String, edit: &Edit) -> Result<(), AllocError>
    ensures { OnOk result (string_bytes text.new ≡ string_bytes text.old ++ edit_line edit.now) }
{
    match edit {
        Edit::Move { v, to } => write!(text, "move {} {} {} {}\n", v.0, to.x, to.y, to.z),
        Edit::Collapse { u, v, max } => write!(text, "collapse {} {} {max}\n", u.0, v.0),
        Edit::Flip { a, b } => write!(text, "flip {} {}\n", a.0, b.0),
        Edit::Simplify { max, target } => write!(text, "simplify {max} {target}\n"),
    }
}

fn put_steps(text: &mut String, steps: &[Step]) -> Result<(), AllocError>
    ensures { OnOk result (string_bytes text.new ≡ string_bytes text.old ++ indented (map step_line steps.now)) }
{
    for step in steps {
        write!(text, "  collapse {} {} {}\n", step.u.0, step.v.0, step.cost)?;
    }
    Ok(())
}

fn put_simplified(text: &mut String, steps: &[Step], left: u32) -> Result<(), AllocError>
    ensures { OnOk result
        (string_bytes text.new ≡ string_bytes text.old ++ indented (reply_lines (Reply.Simplified steps.now left))) }
{
    put_steps(text, steps)?;
    write!(text, "  simplified {left}\n")
}

fn put_reply(text: &mut String, reply: &Reply) -> Result<(), AllocError>
    ensures { OnOk result (string_bytes text.new ≡ string_bytes text.old ++ indented (reply_lines reply.now)) }
{
    match reply {
        Reply::Unheld(v) => write!(text, "  unheld {}\n", v.0),
        Reply::Frozen(v) => write!(text, "  frozen {}\n", v.0),
        Reply::Same => write!(text, "  same\n"),
        Reply::Apart => write!(text, "  apart\n"),
        Reply::Border => write!(text, "  border\n"),
        Reply::Link(w) => write!(text, "  link {}\n", w.0),
        Reply::Closed => write!(text, "  closed\n"),
        Reply::Folds(t) => write!(text, "  folds {} {} {}\n", t.a.0, t.b.0, t.c.0),
        Reply::Dear(cost) => write!(text, "  dear {cost}\n"),
        Reply::Edge(c, d) => write!(text, "  edge {} {}\n", c.0, d.0),
        Reply::Outside => write!(text, "  outside\n"),
        Reply::Done => write!(text, "  done\n"),
        Reply::DoneAt(cost) => write!(text, "  done {cost}\n"),
        Reply::Simplified { steps, left } => put_simplified(text, steps.slice(), *left),
    }
}

fn put_answered(text: &mut String, edit: &Edit, reply: Option<&Reply>) -> Result<(), AllocError>
    ensures { OnOk result
        (string_bytes text.new ≡ string_bytes text.old ++ answered_edit edit.now (option_copied reply.entry)) }
{
    put_edit(text, edit)?;
    if let Some(reply) = reply {
        put_reply(text, reply)?;
    }
    Ok(())
}

/// Writes each edit with the reply at its place, if there is one.
///
/// # Errors
/// Want of memory.
pub fn put_edits(text: &mut String, edits: &[Edit], replies: &[Reply]) -> Result<(), AllocError>
    ensures { OnOk result (string_bytes text.new ≡ string_bytes text.old ++ answered_edits edits.now replies.now) }
{
    let mut replies = replies.iter();
    for edit in edits {
        put_answered(text, edit, replies.next())?;
    }
    Ok(())
}

/// Writes the head line of the entry with this number.
///
/// # Errors
/// Want of memory.
pub fn put_head(text: &mut String, number: u32, entry: &Entry) -> Result<(), AllocError>
    ensures { OnOk result (string_bytes text.new ≡ string_bytes text.old ++ head_line number entry.now) }
{
    let task = &entry.task;
    let low = &task.low;
    let high = &task.high;
    let wide = if entry.wide { " wide" } else { "" };
    write!(
        text,
        "commit {number} lane {} number {} box {} {} {} {} {} {}{wide}\n",
        task.lane.0, task.number, low.x, low.y, low.z, high.x, high.y, high.z
    )
}
