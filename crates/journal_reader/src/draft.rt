//! The entries of the lines so far.

ghost use Rattle.std.specs.Prelude.{◌≡◌, ◌==◌, ◌+◌, IfOk};
ghost use Rattle.leaf_codec.specs.Replies.{may_answer};
ghost use Rattle.journal_reader.specs.Drafts.{after, after_asked, after_edit, after_head, after_left, after_reply, after_step, after_told, answered, begun, is_simplify, nothing, told, within};

use crate::lines::{EntryHead, JournalLine};
use mesh_data::{Edit, Edits, Entries, Entry, Replies, Reply, Step, Steps, Task};
use oemm_limits::MOST_EDITS;
use oemm_octree::LeafSet;
use std::alloc::{AllocError, Global};

/// The greatest number of steps of a reply.
pub const MOST_STEPS: usize = 1 << 26;

/// An edit that waits for its reply, and the steps of that so far.
#[derive(Drop)]
pub struct Asked {
    edit: Edit,
    steps: Steps,
}

/// The last entry, without the edit that waits.
#[derive(Drop)]
pub struct LastEntry {
    entry: Entry,
    asked: Option<Asked>,
}

/// The entries of the lines so far: the number of the first, all but the last, and the last.
#[derive(Drop)]
pub struct Draft {
    first: u32,
    entries: Entries,
    last: Option<LastEntry>,
}

/// The draft of no line.
pub fn nothing(alloc: Global) -> Draft
    ensures { result ≡ nothing }
{
    Draft {
        first: 0,
        entries: Entries::new(alloc),
        last: None,
    }
}

/// The entry that a line begins.
fn begun(alloc: Global, head: &EntryHead) -> Entry
    ensures { result ≡ begun head.now }
{
    Entry {
        task: Task {
            lane: head.lane,
            number: head.task,
            low: head.low,
            high: head.high,
            edits: Edits::new(alloc),
        },
        wide: head.wide,
        replies: Replies::new(alloc),
        core: LeafSet::new(alloc),
    }
}

/// Whether the number is that of the entry behind the last of so many and one more.
fn follows(first: u32, count: usize, number: u32) -> bool
    ensures { result ≡ (number == first + count + 1) }
{
    number > first && (number - first - 1) as usize == count
}

/// The draft after the line that begins an entry.
fn after_head(alloc: Global, draft: Draft, head: &EntryHead) -> Result<Option<Draft>, AllocError>
    ensures { IfOk result (λ next. next ≡ after_head draft draft.last head.now) }
{
    let begun = LastEntry {
        entry: begun(alloc, head),
        asked: None,
    };
    let Draft {
        first,
        mut entries,
        last,
    } = draft;
    let Some(last) = last else {
        return Ok(Some(Draft {
            first: head.number,
            entries,
            last: Some(begun),
        }));
    };
    if last.asked.is_some() || !follows(first, entries.len(), head.number) {
        return Ok(None);
    }
    entries.add(last.entry)?;
    Ok(Some(Draft {
        first,
        entries,
        last: Some(begun),
    }))
}

/// The entry with one more edit and its reply.
fn answered(mut entry: Entry, edit: Edit, reply: Reply) -> Result<Entry, AllocError>
    ensures { IfOk result (λ next. next ≡ answered entry edit reply) }
{
    entry.task.edits.add(edit)?;
    entry.replies.add(reply)?;
    Ok(entry)
}

/// The entry after its next edit.
fn after_edit(alloc: Global, mut entry: Entry, edit: Edit) -> Result<Option<LastEntry>, AllocError>
    ensures { IfOk result (λ next. next ≡ after_edit entry edit) }
{
    if entry.task.edits.len() >= MOST_EDITS {
        return Ok(None);
    }
    if entry.wide {
        entry.task.edits.add(edit)?;
        return Ok(Some(LastEntry { entry, asked: None }));
    }
    let steps = Steps::new(alloc);
    Ok(Some(LastEntry {
        entry,
        asked: Some(Asked { edit, steps }),
    }))
}

/// Whether the edit can have a reply of this kind.
#[tactic(auto, unfolding(leaf_codec::specs::Replies::may_answer))]
fn may_answer(edit: &Edit, reply: &Reply) -> bool
    ensures { result ≡ may_answer edit.now reply.now }
{
    match reply {
        Reply::Unheld(_) | Reply::Frozen(_) => !matches!(edit, Edit::Simplify { .. }),
        Reply::Link(_) | Reply::Closed | Reply::Folds(_) | Reply::Dear(_) | Reply::DoneAt(_) => {
            matches!(edit, Edit::Collapse { .. })
        }
        Reply::Same | Reply::Apart | Reply::Border => {
            matches!(edit, Edit::Collapse { .. } | Edit::Flip { .. })
        }
        Reply::Outside => matches!(edit, Edit::Move { .. }),
        Reply::Done => matches!(edit, Edit::Move { .. } | Edit::Flip { .. }),
        Reply::Edge(_, _) => matches!(edit, Edit::Flip { .. }),
        Reply::Simplified { .. } => matches!(edit, Edit::Simplify { .. }),
    }
}

fn is_simplify(edit: &Edit) -> bool
    ensures { result ≡ is_simplify edit.now }
{
    matches!(edit, Edit::Simplify { .. })
}

/// The entry after a reply that is one line.
fn after_reply(entry: Entry, asked: Asked, reply: Reply) -> Result<Option<LastEntry>, AllocError>
    ensures { IfOk result (λ next. next ≡ after_reply entry asked reply) }
{
    if !may_answer(&asked.edit, &reply) {
        return Ok(None);
    }
    let entry = answered(entry, asked.edit, reply)?;
    Ok(Some(LastEntry { entry, asked: None }))
}

/// The entry after a step of a simplification.
fn after_step(entry: Entry, asked: Asked, step: Step) -> Result<Option<LastEntry>, AllocError>
    ensures { IfOk result (λ next. next ≡ after_step entry asked step) }
{
    let Asked { edit, mut steps } = asked;
    if !is_simplify(&edit) || steps.len() >= MOST_STEPS {
        return Ok(None);
    }
    steps.add(step)?;
    Ok(Some(LastEntry {
        entry,
        asked: Some(Asked { edit, steps }),
    }))
}

/// The entry after the last line of a simplification's reply.
fn after_left(entry: Entry, asked: Asked, left: u32) -> Result<Option<LastEntry>, AllocError>
    ensures { IfOk result (λ next. next ≡ after_left entry asked left) }
{
    let Asked { edit, steps } = asked;
    if !is_simplify(&edit) {
        return Ok(None);
    }
    let entry = answered(entry, edit, Reply::Simplified { steps, left })?;
    Ok(Some(LastEntry { entry, asked: None }))
}

/// The entry after one of its lines, where its last edit has its reply.
fn after_told(
    alloc: Global,
    entry: Entry,
    line: JournalLine,
) -> Result<Option<LastEntry>, AllocError>
    ensures { IfOk result (λ next. next ≡ after_told entry line) }
{
    match line {
        JournalLine::EditLine { edit } => after_edit(alloc, entry, edit),
        _ => Ok(None),
    }
}

/// The entry after one of its lines, where its last edit waits for its reply.
fn after_asked(
    entry: Entry,
    asked: Asked,
    line: JournalLine,
) -> Result<Option<LastEntry>, AllocError>
    ensures { IfOk result (λ next. next ≡ after_asked entry asked line) }
{
    match line {
        JournalLine::ReplyLine { reply } => after_reply(entry, asked, reply),
        JournalLine::StepLine { step } => after_step(entry, asked, step),
        JournalLine::LeftLine { left } => after_left(entry, asked, left),
        _ => Ok(None),
    }
}

/// The entry after one of its lines.
fn within(
    alloc: Global,
    last: LastEntry,
    line: JournalLine,
) -> Result<Option<LastEntry>, AllocError>
    ensures { IfOk result (λ next. next ≡ within last.entry last.asked line) }
{
    let LastEntry { entry, asked } = last;
    match asked {
        None => after_told(alloc, entry, line),
        Some(asked) => after_asked(entry, asked, line),
    }
}

/// The draft after a line, or None where that can't stand there.
///
/// # Errors
/// Want of memory.
#[tactic(auto, unfolding(crate::specs::Drafts::after))]
pub fn after(alloc: Global, draft: Draft, line: JournalLine) -> Result<Option<Draft>, AllocError>
    ensures { IfOk result (λ next. next ≡ after draft line) }
{
    if let JournalLine::HeadLine { head } = &line {
        return after_head(alloc, draft, head);
    }
    let Draft {
        first,
        entries,
        last,
    } = draft;
    let Some(last) = last else {
        return Ok(None);
    };
    match within(alloc, last, line) {
        Ok(Some(last)) => Ok(Some(Draft {
            first,
            entries,
            last: Some(last),
        })),
        Ok(None) => Ok(None),
        Err(error) => Err(error),
    }
}

/// The entries, or None where an edit waits for its reply.
///
/// # Errors
/// Want of memory.
#[tactic(auto, unfolding(crate::specs::Drafts::told))]
pub fn told(draft: Draft) -> Result<Option<Entries>, AllocError>
    ensures { IfOk result (λ entries. entries ≡ told draft) }
{
    let Draft {
        mut entries,
        last,
        ..
    } = draft;
    let Some(last) = last else {
        return Ok(Some(entries));
    };
    if last.asked.is_some() {
        return Ok(None);
    }
    entries.add(last.entry)?;
    Ok(Some(entries))
}
