//! The text of a script.

ghost use Rattle.std.specs.Prelude.{◌≡◌, ◌++◌, OnOk, IfOk};
ghost use Rattle.std.specs.List.{flat_map};
ghost use Rattle.std.specs.String.{string_bytes};
ghost use Rattle.commit_journal.specs.Text.{edit_line};
ghost use Rattle.oemm_make.specs.Text.{script_text, task_line, task_text};

use mesh_data::{Edit, Script, Task};
use oemm_lists::Bytes;
use std::alloc::{AllocError, Global};

fn put_edit(text: &mut String, edit: &Edit) -> Result<(), AllocError>
    ensures { OnOk result (string_bytes text.new ≡ string_bytes text.old ++ edit_line edit.now) }
{
    match edit {
        Edit::Move { v, to } => write!(text, "move {} {} {} {}\n", v.0, to.x, to.y, to.z),
        Edit::Collapse { u, v, max } => write!(text, "collapse {} {} {max}\n", u.0, v.0),
        Edit::Flip { a, b } => write!(text, "flip {} {}\n", a.0, b.0),
        Edit::Simplify { max, target } => write!(text, "simplify {max} {target}\n"),
    }
}

fn put_edits(text: &mut String, edits: &[Edit]) -> Result<(), AllocError>
    ensures { OnOk result (string_bytes text.new ≡ string_bytes text.old ++ flat_map edit_line edits.now) }
{
    for edit in edits {
        put_edit(text, edit)?;
    }
    Ok(())
}

/// Writes the line that begins the task.
fn put_task_line(text: &mut String, task: &Task) -> Result<(), AllocError>
    ensures { OnOk result (string_bytes text.new ≡ string_bytes text.old ++ task_line task.now) }
{
    let low = &task.low;
    let high = &task.high;
    write!(
        text,
        "task {} {} {} {} {} {} {}\n",
        task.lane.0, low.x, low.y, low.z, high.x, high.y, high.z
    )
}

fn put_task(text: &mut String, task: &Task) -> Result<(), AllocError>
    ensures { OnOk result (string_bytes text.new ≡ string_bytes text.old ++ task_text task.now) }
{
    put_task_line(text, task)?;
    put_edits(text, task.edits.slice())
}

fn put_tasks(text: &mut String, tasks: &[Task]) -> Result<(), AllocError>
    ensures { OnOk result (string_bytes text.new ≡ string_bytes text.old ++ script_text tasks.now) }
{
    for task in tasks {
        put_task(text, task)?;
    }
    Ok(())
}

/// The text of a script: for each task the line that begins it, and then a line for each of its edits. Read back it is
/// the same script, where its tasks are numbered by their lanes and its limits are kept.
///
/// # Errors
/// Want of memory.
pub fn script_text(alloc: Global, script: &Script) -> Result<Bytes, AllocError>
    ensures { IfOk result (λ text. text ≡ script_text script.now.tasks) }
{
    let mut text = String::new(alloc);
    put_tasks(&mut text, script.tasks.slice())?;
    Ok(Bytes::from_vec(text.into_bytes()))
}
