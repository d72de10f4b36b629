//! What the lines of a journal say.

ghost use Rattle.std.specs.Prelude.{◌≡◌};
ghost use Rattle.byte_grammar.specs.Calls.{Finds};
ghost use Rattle.journal_reader.specs.Lines.{line, line_of};

use crate::entry_lines::{edit_at, head_at};
use crate::reply_lines::reply_at;
use mesh_data::{Edit, Lane, Reply, Step};
use oemm_octree::Point;

/// What the line says that begins an entry.
#[derive(Clone, Copy)]
pub struct EntryHead {
    pub number: u32,
    pub lane: Lane,
    /// The number of the lane's tasks before the entry's.
    pub task: u32,
    pub low: Point,
    pub high: Point,
    pub wide: bool,
}

/// What a line says.
#[derive(Drop)]
pub enum JournalLine {
    /// An entry begins.
    HeadLine { head: EntryHead },
    /// The entry's next edit.
    EditLine { edit: Edit },
    /// The edit's reply, if that is one line.
    ReplyLine { reply: Reply },
    /// A collapse that the edit, a simplification, made.
    StepLine { step: Step },
    /// The simplification made no further collapse, and left so many triangles.
    LeftLine { left: u32 },
}

/// What a line says, and the bytes behind it.
#[tactic(auto, unfolding(crate::specs::Lines::line))]
fn line_at(bytes: &[u8]) -> Option<(JournalLine, &[u8])>
    ensures { Finds (λ x. (x.0, x.1.now)) result (line bytes.now) }
{
    if let Some(rest) = bytes.strip_prefix(b"  ") {
        reply_at(rest)
    } else if let Some(rest) = bytes.strip_prefix(b"commit ") {
        match head_at(rest) {
            Some((head, rest)) => Some((JournalLine::HeadLine { head }, rest)),
            None => None,
        }
    } else {
        match edit_at(bytes) {
            Some((edit, rest)) => Some((JournalLine::EditLine { edit }, rest)),
            None => None,
        }
    }
}

/// What these bytes say, where they are one line with its line feed.
#[tactic(auto, unfolding(crate::specs::Lines::line_of))]
pub fn line_of(bytes: &[u8]) -> Option<JournalLine>
    ensures { result ≡ line_of bytes.now }
{
    match line_at(bytes) {
        Some((line, rest)) => { if rest.is_empty() { Some(line) } else { None } }
        None => None,
    }
}
