//! The text of entries, one behind another.

ghost use Rattle.std.specs.Prelude.{◌≡◌, ◌+◌, ◌^◌, ◌≤◌, ◌++◌, length, OnOk, IfOk};
ghost use Rattle.std.specs.String.{string_bytes};
ghost use Rattle.commit_journal.specs.Text.{entry_text, journal_text};

use crate::lines::{put_edits, put_head};
use mesh_data::{Entries, Entry};
use oemm_lists::Bytes;
use std::alloc::{AllocError, Global};

fn put_entry(text: &mut String, number: u32, entry: &Entry) -> Result<(), AllocError>
    ensures { OnOk result (string_bytes text.new ≡ string_bytes text.old ++ entry_text number entry.now) }
{
    put_head(text, number, entry)?;
    let replies = if entry.wide {
        &[]
    } else {
        entry.replies.slice()
    };
    put_edits(text, entry.task.edits.slice(), replies)
}

fn put_entries(text: &mut String, first: u32, entries: &[Entry]) -> Result<(), AllocError>
    requires { first + length entries.now ≤ 2 ^ 32 }
    ensures { OnOk result (string_bytes text.new ≡ string_bytes text.old ++ journal_text first entries.now) }
{
    for (place, entry) in entries.iter().enumerate() {
        put_entry(text, first + place as u32, entry)?;
    }
    Ok(())
}

/// The text of the entry with this number.
///
/// # Errors
/// Want of memory.
pub fn line_text(alloc: Global, number: u32, entry: &Entry) -> Result<Bytes, AllocError>
    ensures { IfOk result (λ text. text ≡ entry_text number entry.now) }
{
    let mut text = String::new(alloc);
    put_entry(&mut text, number, entry)?;
    Ok(Bytes::from_vec(text.into_bytes()))
}

/// The text of the entries, which are numbered on from the first number.
///
/// # Errors
/// Want of memory.
pub fn journal_text(alloc: Global, first: u32, entries: &Entries) -> Result<Bytes, AllocError>
    requires { first + length entries.now ≤ 2 ^ 32 }
    ensures { IfOk result (λ text. text ≡ journal_text first entries.now) }
{
    let mut text = String::new(alloc);
    put_entries(&mut text, first, entries.slice())?;
    Ok(Bytes::from_vec(text.into_bytes()))
}
