//! The bytes that were read ahead of what was given.

ghost use Rattle.std.specs.Prelude.{◌≡◌, ◌+◌, ◌-◌, ◌<◌, ◌≤◌, [], length, take, drop, slice_range, IfOk, OnErr};
ghost use Rattle.fault_counts.specs.Counts.{HasCause};
ghost use Rattle.fault_counts.specs.Told.{Takes, TakesSome, IsAtEnd};
ghost use Rattle.oemm_lines.specs.Stream.{left_with, most_ahead};

use oemm_io::{BLOCK, Failed, Source};
use std::alloc::{AllocError, Global};
use std::marker::Model;

/// How many bytes there is room for.
const ROOM: usize = 2 * BLOCK;

/// The bytes of a source that were taken and not yet given.
#[derive(Drop)]
pub struct Ahead {
    buffer: Vec<u8>,
    from: usize,
    to: usize,
}

impl Model for Ahead {
    ghost use Rattle.std.specs.Prelude.{◌≡◌, ◌≤◌, List, ℕ, slice_range, vec_len};
    ghost use Rattle.oemm_lines.specs.Stream.{most_ahead};

    ghost Value = { List ℕ };

    ghost view = { λ a. slice_range a.buffer.items a.from a.to };

    ghost invariant = { λ a. (a.from ≤ a.to) × (a.to ≤ vec_len a.buffer) × (vec_len a.buffer ≡ most_ahead) };
}

impl Ahead {
    /// No bytes, and the memory for all that will be read ahead.
    pub fn new(alloc: Global) -> Result<Ahead, AllocError>
        ensures { IfOk result (λ a. a ≡ []) }
    {
        Ok(Ahead {
            buffer: vec![in alloc; 0; ROOM]?,
            from: 0,
            to: 0,
        })
    }

    /// What was read ahead and isn't taken yet.
    pub fn bytes(&self) -> &[u8]
        ensures { result.now ≡ self.now }
    {
        &self.buffer[self.from..self.to]
    }

    /// Lets the first bytes go.
    pub fn skip(&mut self, count: usize)
        requires { count ≤ length self.old }
        ensures { self.new ≡ drop count self.old }
    {
        self.from += count;
    }

    /// Takes a block behind the bytes, or as much of one as the source gives, and answers how many bytes that was.
    ///
    /// # Errors
    /// `Failed` where the source fails.
    pub fn fill<S: Source>(&mut self, source: &mut S) -> Result<usize, Failed>
        requires { length self.old ≤ BLOCK }
        ensures left { left_with self.old (S.left source.old) ≡ left_with self.new (S.left source.new) }
        ensures front { take (length self.old) self.new ≡ self.old }
        ensures count { IfOk result (λ n. length self.new ≡ length self.old + n) }
        ensures end { IfOk result (λ n. n ≡ 0 → IsAtEnd (S.left source.new)) }
        ensures room { length self.new ≤ most_ahead }
        ensures err { OnErr result (self.new ≡ self.old) }
        ensures source { TakesSome (S.left source.old) (S.left source.new) }
        ensures cause { HasCause (S.faults source.old) (S.faults source.new) result }
    {
        let buffer = self.buffer.as_mut_slice();
        let (from, to) = moved_to_front(buffer, self.from, self.to);
        let taken = take_block(buffer, to, source);
        self.from = from;
        self.to = to;
        let count = taken?;
        self.to += count;
        Ok(count)
    }
}

/// Moves the part of the buffer to its front where there is no room for a block behind it, and answers where it is.
fn moved_to_front(buffer: &mut [u8], from: usize, to: usize) -> (usize, usize)
    requires order { from ≤ to }
    requires within { to ≤ length buffer.old }
    requires short { to - from ≤ BLOCK }
    ensures kept { slice_range buffer.new result.0 result.1 ≡ slice_range buffer.old from to }
    ensures order { result.0 ≤ result.1 }
    ensures low { result.1 ≤ BLOCK }
{
    if to <= BLOCK {
        return (from, to);
    }
    buffer.copy_within(from..to, 0);
    (0, to - from)
}

/// Takes a block into the buffer from a place on.
fn take_block<S: Source>(buffer: &mut [u8], at: usize, source: &mut S) -> Result<usize, Failed>
    requires { at + BLOCK ≤ length buffer.old }
    ensures front { take at buffer.new ≡ take at buffer.old }
    ensures within { IfOk result (λ n. n ≤ BLOCK) }
    ensures taken { IfOk result
        (λ n. Takes (S.left source.old) (S.left source.new) (slice_range buffer.new at (at + n))) }
    ensures end { IfOk result (λ n. n ≡ 0 → IsAtEnd (S.left source.old)) }
    ensures err { OnErr result (S.left source.new ≡ S.left source.old) }
    ensures source { TakesSome (S.left source.old) (S.left source.new) }
    ensures cause { HasCause (S.faults source.old) (S.faults source.new) result }
{
    source.take(&mut buffer[at..at + BLOCK])
}
