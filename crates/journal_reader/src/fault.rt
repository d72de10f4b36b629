//! What keeps a text from being read.

use std::alloc::AllocError;
use thiserror::Error;

/// Why there are no entries of a text.
#[derive(Clone, Copy, Debug, PartialEq, Eq, Error)]
pub enum JournalFault {
    /// The text is that of no journal. `line` counts from 1: the first line that lacks its line feed or with which the
    /// lines so far begin no journal's text, and the number of lines and one more where the text only ends too early.
    #[error("fault in line {line}")]
    Syntax { line: u64 },
    #[error("no memory")]
    Memory,
}

impl From<AllocError> for JournalFault {
    ghost use Rattle.std.specs.Prelude.{◌≡◌};
    ghost use Rattle.journal_reader.specs.declared.fault.JournalFault.TheVariants.{Memory};

    ghost from_gives = { λ _ fault. fault ≡ Memory };

    fn from(_: AllocError) -> JournalFault {
        JournalFault::Memory
    }
}
