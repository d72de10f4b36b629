//! What the words of the command line ask for.

use crate::command_words::CommandWord;
use mesh_out::Form;
use std::alloc::AllocError;

/// What the words ask for.
#[derive(Debug, Drop)]
pub enum Order {
    /// Do a script on a mesh, and write the mesh that it leaves.
    Run {
        mesh: CommandWord,
        script: CommandWord,
        out: CommandWord,
        /// The format of the mesh that is written, by the ending of `out`.
        form: Form,
        /// The greatest number of vertices of a leaf of the octree that can be cut no further.
        cap: u32,
        /// The greatest number of leaves of a task's core.
        core: u32,
        /// How many sheets are kept in memory.
        cache: u32,
        workers: u8,
    },
}

/// The places of words on the command line, counted from 0 behind the program's name.
#[derive(Clone, Copy, Debug, PartialEq, Eq)]
pub struct Roles {
    pub mesh: Option<u32>,
    pub script: Option<u32>,
    pub out: Option<u32>,
    pub store: Option<u32>,
    pub workers: u8,
}

/// Why words can't be read.
#[derive(Clone, Copy, Debug, PartialEq, Eq)]
pub enum WordsFault {
    /// They are in no form.
    Usage,
    Memory,
}

impl From<AllocError> for WordsFault {
    ghost use Rattle.std.specs.Prelude.{◌≡◌};
    ghost use Rattle.oemm_words.specs.declared.orders.WordsFault.TheVariants.{Memory};

    ghost from_gives = { λ _ fault. fault ≡ Memory };

    fn from(_: AllocError) -> WordsFault {
        WordsFault::Memory
    }
}
