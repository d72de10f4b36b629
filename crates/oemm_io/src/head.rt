//! A source with a few bytes before it.

ghost use Rattle.std.specs.Prelude.{◌≡◌, ◌≤◌, ◌++◌, take};
ghost use Rattle.std.specs.Option.{option_map};

use crate::copies::copy_front;
use crate::flows::{Failed, Source};
use std::marker::Model;

/// A source that first gives up to three bytes and then those of another source.
#[derive(Drop)]
pub struct Headed<S> {
    head: [u8; 3],
    at: usize,
    end: usize,
    source: S,
}

impl<S> Model for Headed<S> {
    ghost use Rattle.std.specs.Prelude.{◌≤◌, slice_range};
    ghost use Rattle.oemm_io.specs.Head.{WithHead};

    ghost Value = { WithHead S };

    ghost view = { λ a. record { head = slice_range a.head a.at a.end; source = a.source } };

    ghost invariant = { λ a. (a.at ≤ a.end) × (a.end ≤ 3) };
}

impl<S> Headed<S> {
    /// The first `n` bytes of `head` before those of the source.
    pub fn new(source: S, head: [u8; 3], n: u8) -> Headed<S>
        requires { n ≤ 3 }
        ensures { result ≡ record { head = take n head; source = source } }
    {
        Headed {
            head,
            at: 0,
            end: usize::from(n),
            source,
        }
    }

    /// The source, whose bytes it gives after those before it.
    pub fn into_source(self) -> S
        ensures { result ≡ self.source }
    {
        let Headed { source, .. } = self;
        source
    }
}

impl<S: Source> Source for Headed<S> {
    ghost left = { λ headed. option_map (λ rest. headed.head ++ rest) (S.left headed.source) };

    ghost faults = { λ headed. S.faults headed.source };

    fn take(&mut self, buf: &mut [u8]) -> Result<usize, Failed> {
        let head = &self.head[self.at..self.end];
        if head.is_empty() {
            return self.source.take(buf);
        }
        let count = copy_front(head, buf);
        self.at += count;
        Ok(count)
    }
}
