//! The words of a line, by their places and one behind another.

ghost use Rattle.std.specs.Prelude.{◌≡◌, [], ◌∷◌, slice_get, Some, None, IfSome, IfNone, MatchOption};
ghost use Rattle.oemm_lines.specs.Stream.{texts_of, IsPlaced};

use super::parts::{Line, Word};
use std::marker::Model;

impl Line {
    /// The word at this place, counted from 0, or None where the line has fewer words.
    pub fn word(&self, place: usize) -> Option<&[u8]>
        requires { IsPlaced self.now }
        ensures { MatchOption result (slice_get (texts_of self.now) place ≡ None)
            (λ word. slice_get (texts_of self.now) place ≡ Some word.now) }
    {
        let word = self.words.slice().get(place)?;
        Some(&self.bytes.slice()[word.from as usize..word.to as usize])
    }

    /// All words, to be taken one behind another.
    pub fn words_left(&self) -> WordsLeft<'_>
        requires { IsPlaced self.now }
        ensures { result ≡ texts_of self.now }
    {
        WordsLeft {
            bytes: self.bytes.slice(),
            words: self.words.slice(),
        }
    }
}

/// The words of a line that weren't taken yet.
#[derive(Drop)]
pub struct WordsLeft<'a> {
    bytes: &'a [u8],
    words: &'a [Word],
}

impl<'a> Model for WordsLeft<'a> {
    ghost use Rattle.std.specs.Prelude.{ℕ, List, map, All};
    ghost use Rattle.oemm_lines.specs.Stream.{word_in, IsWordIn};

    ghost Value = { List (List ℕ) };

    ghost view = { λ a. map (word_in a.bytes.now) a.words.now };

    ghost invariant = { λ a. All (IsWordIn a.bytes.now) a.words.now };
}

impl<'a> WordsLeft<'a> {
    /// Takes the next word, or None where none is left.
    pub fn next(&mut self) -> Option<&'a [u8]>
        ensures none { IfNone result ((self.old ≡ []) × (self.new ≡ [])) }
        ensures word { IfSome result (λ word. self.old ≡ word.now ∷ self.new) }
    {
        let (word, rest) = self.words.split_first()?;
        self.words = rest;
        Some(&self.bytes[word.from as usize..word.to as usize])
    }
}
