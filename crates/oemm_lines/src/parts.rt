//! A line, its words, and what can stand in its place.

use oemm_io::Failed;
use oemm_lists::{Bytes, List};
use std::alloc::AllocError;

/// A word of a line: its bytes from the place `from` up to, not including, the place `to`, counted from 0.
#[derive(Clone, Copy, Debug, PartialEq, Eq)]
pub struct Word {
    pub from: u32,
    pub to: u32,
}

/// The words of a line, in their order.
pub type Words = List<Word>;

/// A line of a source.
#[derive(Debug, Drop)]
pub struct Line {
    /// How many bytes stand before the line.
    pub at: u64,
    /// 1 and the number of lines before it.
    pub number: u64,
    /// The line without its line feed and without one carriage return before that.
    pub bytes: Bytes,
    pub words: Words,
}

/// Why there is no next line.
#[derive(Clone, Copy, Debug, PartialEq, Eq)]
pub enum LineFault {
    /// The source failed.
    Read,
    /// More than 65,536 bytes stand before the line feed. `at` is the number of bytes before the line.
    TooLong { at: u64 },
    /// A byte past the budget is there, and was asked for. `taken` is the budget.
    Bytes { taken: u64 },
    Memory,
}

impl From<AllocError> for LineFault {
    ghost use Rattle.std.specs.Prelude.{◌≡◌};
    ghost use Rattle.oemm_lines.specs.declared.parts.LineFault.TheVariants.{Memory};

    ghost from_gives = { λ _ fault. fault ≡ Memory };

    fn from(_: AllocError) -> LineFault {
        LineFault::Memory
    }
}

impl From<Failed> for LineFault {
    ghost use Rattle.std.specs.Prelude.{◌≡◌};
    ghost use Rattle.oemm_lines.specs.declared.parts.LineFault.TheVariants.{Read};

    ghost from_gives = { λ _ fault. fault ≡ Read };

    fn from(_: Failed) -> LineFault {
        LineFault::Read
    }
}
