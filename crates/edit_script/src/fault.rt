//! The faults of a script.

ghost use Rattle.std.specs.Prelude.{◌≡◌};

use oemm_limits::{MOST_LINE_BYTES, MOST_SCRIPT_BYTES, What};
use oemm_lines::LineFault;
use std::alloc::{AllocError, AllocFailed};
use thiserror::Error;

/// What is wrong with a line of a script, in the order in which a line is looked at.
#[derive(Clone, Copy, Debug, PartialEq, Eq)]
pub enum ScriptWhy {
    /// The first word is none of the script's.
    Word,
    /// The line has too few or too many words.
    Words,
    /// A number isn't in its form or its range.
    Number,
    /// The lane is above 63.
    Lane,
    /// The box's low corner is above its high one along some axis.
    Box,
    /// An edit stands before the first task.
    NoTask,
}

/// Why a script can't be read.
#[derive(Clone, Copy, Debug, PartialEq, Eq, Error)]
pub enum ScriptFault {
    /// The source failed.
    #[error("the script can't be read")]
    Read,
    /// The first fault of the text. `line` counts all lines from 1.
    #[error("fault in line {line}: {why:?}")]
    Syntax { line: u32, why: ScriptWhy },
    /// A limit is passed: of the bytes of the whole, or before each later fault of the text that of the bytes of a
    /// line, of the tasks, or of the edits of a task.
    #[error("too many {what:?}: {count}")]
    TooMany { what: What, count: u64 },
    #[error("no memory")]
    Memory,
}

impl From<AllocError> for ScriptFault {
    ghost use Rattle.edit_script.specs.declared.fault.ScriptFault.TheVariants.{Memory};

    ghost from_gives = { λ _ fault. fault ≡ Memory };

    fn from(_: AllocError) -> ScriptFault {
        ScriptFault::Memory
    }
}

impl<T: Drop> From<AllocFailed<T>> for ScriptFault {
    ghost use Rattle.edit_script.specs.declared.fault.ScriptFault.TheVariants.{Memory};

    ghost from_gives = { λ _ fault. fault ≡ Memory };

    fn from(_: AllocFailed<T>) -> ScriptFault {
        ScriptFault::Memory
    }
}

impl From<LineFault> for ScriptFault {
    ghost use Rattle.edit_script.specs.Grammar.{fault_of_line};

    ghost from_gives = { λ fault answer. answer ≡ fault_of_line fault };

    fn from(fault: LineFault) -> ScriptFault {
        match fault {
            LineFault::Read => ScriptFault::Read,
            LineFault::TooLong { .. } => ScriptFault::TooMany {
                what: What::LineBytes,
                count: MOST_LINE_BYTES + 1,
            },
            LineFault::Bytes { .. } => ScriptFault::TooMany {
                what: What::ScriptBytes,
                count: MOST_SCRIPT_BYTES as u64,
            },
            LineFault::Memory => ScriptFault::Memory,
        }
    }
}
