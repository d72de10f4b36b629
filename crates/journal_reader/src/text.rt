//! A whole text.

ghost use Rattle.std.specs.Prelude.{◌≡◌, ◌<◌, ◌≤◌, ◌+◌, ℕ, List, [], ◌∷◌, ◌++◌, length, IfOk, IfErr, MatchOption};
ghost use Rattle.std.specs.List.{slice_split};
ghost use Rattle.mesh_data.specs.declared.edits.Entry.{Entry};
ghost use Rattle.journal_reader.specs.Drafts.{after_bytes, nothing, reading};
ghost use Rattle.journal_reader.specs.Journal.{Answers, is_feed};
ghost use Rattle.journal_reader.specs.Readings.{Gives};

use crate::draft::{Draft, after, nothing, told};
use crate::fault::JournalFault;
use crate::lines::line_of;
use memchr::memchr;
use mesh_data::Entries;
use std::alloc::{AllocError, Global};

/// The first line with its line feed, and what stands behind it.
fn first_line(text: &[u8]) -> Option<(&[u8], &[u8])>
    ensures cut { MatchOption result (slice_split is_feed text.now ≡ text.now ∷ [])
        (λ p. (l : List ℕ) × (p.0.now ≡ l ++ 10 ∷ []) × (slice_split is_feed text.now ≡ l ∷ slice_split is_feed p.1.now)) }
    ensures less { MatchOption result (0 ≤ length text.now) (λ p. length p.1.now < length text.now) }
{
    match memchr(b'\n', text) {
        Some(end) => Some(text.split_at(end + 1)),
        None => None,
    }
}

/// The draft after a line, or None where that can't stand there.
#[tactic(auto, unfolding(crate::specs::Drafts::after_bytes))]
fn after_line(alloc: Global, draft: Draft, line: &[u8]) -> Result<Option<Draft>, AllocError>
    ensures { IfOk result (λ next. next ≡ after_bytes draft line.now) }
{
    match line_of(line) {
        Some(line) => after(alloc, draft, line),
        None => Ok(None),
    }
}

/// The entries at the end of a text, of which these bytes stand behind the last line feed.
#[tactic(auto, unfolding(crate::specs::Drafts::reading))]
fn at_end(draft: Draft, rest: &[u8], line: u64) -> Result<Entries, JournalFault>
    ensures { Gives result (reading line draft (rest.now ∷ [])) }
{
    if !rest.is_empty() {
        return Err(JournalFault::Syntax { line });
    }
    match told(draft) {
        Ok(Some(entries)) => Ok(entries),
        Ok(None) => Err(JournalFault::Syntax { line }),
        Err(_) => Err(JournalFault::Memory),
    }
}

/// The entries of a text, line by line.
fn read(alloc: Global, text: &[u8]) -> Result<Entries, JournalFault>
    ensures { Gives result (reading 1 nothing (slice_split is_feed text.now)) }
{
    let mut draft = nothing(alloc);
    let mut rest = text;
    let mut number = 1;
    while let Some((line, behind)) = first_line(rest) {
        match after_line(alloc, draft, line) {
            Ok(Some(next)) => draft = next,
            Ok(None) => return Err(JournalFault::Syntax { line: number }),
            Err(_) => return Err(JournalFault::Memory),
        }
        rest = behind;
        number += 1;
    }
    at_end(draft, rest, number)
}

/// Reads a journal's text back: the entries whose text it is, numbered on from some first number, without their cores,
/// which no text tells. The empty text is that of no entries. It takes time of about N for N bytes.
///
/// # Errors
/// `Syntax` exactly where the text is that of no entries; `Memory`.
pub fn entries_of(alloc: Global, text: &[u8]) -> Result<Entries, JournalFault>
    ensures { Answers text.now result }
{
    read(alloc, text)
}
