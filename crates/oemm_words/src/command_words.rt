//! The words of the command line.

ghost use Rattle.std.specs.Prelude.{◌≡◌, ◌<◌, [], ◌∷◌, ◌++◌, length, slice_get, Some, OnOk, OnErr, IfOk};

use oemm_lists::{Copied, List};
use std::alloc::{AllocError, Global};
use std::marker::Model;

/// A word of the command line, which contracts see as its bytes.
#[derive(Debug, Drop)]
pub struct CommandWord {
    text: String,
}

impl Model for CommandWord {
    ghost use Rattle.std.specs.Prelude.{List, ℕ};
    ghost use Rattle.std.specs.String.{string_bytes};

    ghost Value = { List ℕ };

    ghost view = { λ w. string_bytes w.text };
}

impl CommandWord {
    /// A copy of the text.
    ///
    /// # Errors
    /// Want of memory.
    pub fn of(alloc: Global, text: &str) -> Result<CommandWord, AllocError>
        ensures { IfOk result (λ word. word ≡ text.now) }
    {
        Ok(CommandWord {
            text: String::from_str(alloc, text)?,
        })
    }

    /// The word as text.
    pub fn as_str(&self) -> &str
        ensures { result.now ≡ self.now }
    {
        self.text.as_str()
    }
}

impl Copied for CommandWord {
    fn copy(&self, alloc: Global) -> Result<CommandWord, AllocError> {
        CommandWord::of(alloc, self.as_str())
    }
}

/// The words of the command line after the program's name.
#[derive(Debug, Drop)]
pub struct CommandWords {
    words: List<CommandWord>,
    alloc: Global,
}

impl Model for CommandWords {
    ghost use Rattle.std.specs.Prelude.{List, ℕ};

    ghost Value = { List (List ℕ) };

    ghost view = { λ w. w.words };
}

impl CommandWords {
    /// No words. It takes no memory.
    pub fn new(alloc: Global) -> Self
        ensures { result ≡ [] }
    {
        CommandWords {
            words: List::new(alloc),
            alloc,
        }
    }

    /// The number of words.
    pub fn len(&self) -> usize
        ensures { result ≡ length self.now }
    {
        self.words.len()
    }

    /// The word at a place, counted from 0.
    pub fn at(&self, place: usize) -> &CommandWord
        requires { place < length self.now }
        ensures { slice_get self.now place ≡ Some result.now }
    {
        self.words.at(place)
    }

    /// All words, lent.
    pub fn slice(&self) -> &[CommandWord]
        ensures { result.now ≡ self.now }
    {
        self.words.slice()
    }

    /// Puts a copy of the word at the end. For want of memory the list is unchanged.
    pub fn push(&mut self, word: &str) -> Result<(), AllocError>
        ensures ok { OnOk result (self.new ≡ self.old ++ word.now ∷ []) }
        ensures err { OnErr result (self.new ≡ self.old) }
    {
        let copy = CommandWord::of(self.alloc, word)?;
        self.words.add(copy)
    }
}

impl Copied for CommandWords {
    fn copy(&self, alloc: Global) -> Result<CommandWords, AllocError> {
        Ok(CommandWords {
            words: self.words.copy(alloc)?,
            alloc,
        })
    }
}
