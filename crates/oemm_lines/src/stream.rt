//! The lines of a source.

use super::ahead::Ahead;
use super::ends::{Found, find_end};
use super::fills::{Stop, fill_from};
use super::lines::without_carriage_return;
use super::parts::{Line, LineFault};
use super::places::words_of_line;
use oemm_io::Source;
use oemm_limits::MOST_LINE_BYTES;
use oemm_lists::Bytes;
use std::alloc::{AllocError, Global};
use std::marker::Model;

/// A reader of the lines of a source.
///
/// It takes blocks of 64 KiB and has room for two of them, whatever the source has: never more than 131,072 bytes are
/// read ahead of what was given. Contracts see it as the source, these bytes, and how far it has come.
#[derive(Drop)]
pub struct Lines<S> {
    alloc: Global,
    source: S,
    ahead: Ahead,
    at: u64,
    lines: u64,
    budget: u64,
    comments: bool,
    fault: Option<LineFault>,
}

impl<S> Model for Lines<S> {
    ghost use Rattle.std.specs.Prelude.{◌+◌, ◌≤◌, length};
    ghost use Rattle.oemm_lines.specs.Stream.{Stream, most_ahead};

    ghost Value = { Stream S };

    ghost view = { λ a. record {
      source = a.source;
      ahead = a.ahead;
      at = a.at;
      number = a.lines + 1;
      budget = a.budget;
      comments = a.comments;
      fault = a.fault;
    } };

    ghost invariant = { λ a. (a.at ≤ a.budget) × (a.lines ≤ a.at) × (length a.ahead ≤ most_ahead) };
}

impl<S> Lines<S> {
    ghost use Rattle.std.specs.Prelude.{◌≡◌, IfOk, IfErr};
    ghost use Rattle.oemm_lines.specs.Stream.{fresh_stream};

    /// A reader of the source's lines, of which it wants no byte past the first `budget`. Where there are comments,
    /// `#` begins one, which goes on to the end of its line.
    ///
    /// # Errors
    /// Where the memory for two blocks can't be had. Then the source comes back.
    pub fn new(
        alloc: Global,
        source: S,
        budget: u64,
        comments: bool,
    ) -> Result<Lines<S>, (S, AllocError)>
        ensures ok { IfOk result (λ lines. lines ≡ fresh_stream budget comments source) }
        ensures err { IfErr result (λ back. back.0 ≡ source) }
    {
        match Ahead::new(alloc) {
            Ok(ahead) => Ok(Lines {
                alloc,
                source,
                ahead,
                at: 0,
                lines: 0,
                budget,
                comments,
                fault: None,
            }),
            Err(error) => Err((source, error)),
        }
    }

    /// How many bytes stand before what comes next: at the end of the source, how many it has given in all.
    pub fn at(&self) -> u64
        ensures { result ≡ self.now.at }
    {
        self.at
    }

    /// The source. The bytes that were read ahead are lost.
    pub fn into_source(self) -> S
        ensures { result ≡ self.source }
    {
        let Lines { source, .. } = self;
        source
    }
}

impl<S: Source> Lines<S> {
    ghost use Rattle.std.specs.Prelude.{◌≡◌, ◌+◌, ◌^◌, ◌<◌, ◌≤◌, None, Some, Err, drop, length, IfSome, IfOk, OnOk};
    ghost use Rattle.std.specs.Result.{result_err};
    ghost use Rattle.fault_counts.specs.Counts.{TellsFailure};
    ghost use Rattle.fault_counts.specs.Told.{TakesSome};
    ghost use Rattle.oemm_lines.specs.Stream.{end_of, flow_left, line_of, UsesSource, GivesNext, RawGives, Says, most_ahead};

    /// The next line, or None at the end of the source. Lines end in a line feed, and one carriage return before that
    /// belongs to their end; the last line may lack its end.
    ///
    /// # Errors
    /// `Read` where the source fails. `TooLong` where a line has more than 65,536 bytes before its line feed and the
    /// first 65,537 lie within the budget, else `Bytes` where one of its bytes or its line feed lies past that.
    /// `Memory`. Once a fault was answered, each later call answers it again.
    pub fn next(&mut self) -> Result<Option<Line>, LineFault>
        ensures again { IfSome self.old.fault (λ fault. (result ≡ Err fault) × (self.new ≡ self.old)) }
        ensures stands { self.new.fault ≡ result_err result }
        ensures gives { GivesNext S.left self.old result self.new }
        ensures says { Says (flow_left S.left self.old) result (flow_left S.left self.new) }
        ensures size { OnOk result (end_of S.left self.new ≡ end_of S.left self.old) }
        ensures room { length self.new.ahead ≤ most_ahead }
        ensures source { TakesSome (S.left self.old.source) (S.left self.new.source) }
        ensures cause { self.old.fault ≡ None →
            TellsFailure LineFault.Read (S.faults self.old.source) (S.faults self.new.source) result }
        ensures same { (self.new.budget ≡ self.old.budget) × (self.new.comments ≡ self.old.comments) }
    {
        if let Some(fault) = self.fault {
            return Err(fault);
        }
        match self.next_line() {
            Ok(line) => Ok(line),
            Err(fault) => Err(self.stop(fault)),
        }
    }

    /// Fills the buffer with the bytes behind the last line, and answers how many they are: fewer than the buffer has
    /// room for at the end of the source alone. They are no lines, and aren't counted as such.
    ///
    /// # Errors
    /// `Read` where the source fails, and `Bytes` where one of these bytes lies past the budget. Some of the bytes may
    /// be lost then. Once a fault was answered, each later call answers it again.
    pub fn raw(&mut self, buf: &mut [u8]) -> Result<usize, LineFault>
        ensures again { IfSome self.old.fault (λ fault. (result ≡ Err fault) × (self.new ≡ self.old)) }
        ensures stands { self.new.fault ≡ result_err result }
        ensures gives { RawGives S.left self.old buf.new result self.new }
        ensures size { OnOk result (end_of S.left self.new ≡ end_of S.left self.old) }
        ensures room { length self.new.ahead ≤ most_ahead }
        ensures source { TakesSome (S.left self.old.source) (S.left self.new.source) }
        ensures cause { self.old.fault ≡ None →
            TellsFailure LineFault.Read (S.faults self.old.source) (S.faults self.new.source) result }
        ensures same { (self.new.budget ≡ self.old.budget) × (self.new.comments ≡ self.old.comments) }
    {
        if let Some(fault) = self.fault {
            return Err(fault);
        }
        match self.fill(buf) {
            Ok(count) => Ok(count),
            Err(fault) => Err(self.stop(fault)),
        }
    }

    /// Keeps the fault, so that it is answered from now on.
    fn stop(&mut self, fault: LineFault) -> LineFault
        ensures same { result ≡ fault }
        ensures stands { self.new ≡ record self.old { fault = Some fault } }
    {
        self.fault = Some(fault);
        fault
    }

    /// Fills the buffer, where no fault was answered.
    fn fill(&mut self, buf: &mut [u8]) -> Result<usize, LineFault>
        requires { self.old.fault ≡ None }
        ensures calm { self.new.fault ≡ None }
        ensures room { length self.new.ahead ≤ most_ahead }
        ensures gives { RawGives S.left self.old buf.new result self.new }
        ensures uses { UsesSource S.left S.faults LineFault.Read self.old self.new result }
        ensures same { (self.new.budget ≡ self.old.budget) × (self.new.comments ≡ self.old.comments) }
    {
        let room = self.budget - self.at;
        match fill_from(&mut self.source, &mut self.ahead, buf, room) {
            Ok(count) => {
                self.at += count as u64;
                Ok(count)
            }
            Err(Stop::Failed) => Err(LineFault::Read),
            Err(Stop::Past) => Err(LineFault::Bytes { taken: self.budget }),
        }
    }

    /// The next line, where no fault was answered.
    fn next_line(&mut self) -> Result<Option<Line>, LineFault>
        requires { self.old.fault ≡ None }
        ensures calm { self.new.fault ≡ None }
        ensures room { length self.new.ahead ≤ most_ahead }
        ensures gives { GivesNext S.left self.old result self.new }
        ensures uses { UsesSource S.left S.faults LineFault.Read self.old self.new result }
        ensures same { (self.new.budget ≡ self.old.budget) × (self.new.comments ≡ self.old.comments) }
    {
        let room = self.budget - self.at;
        let limit = room.min(MOST_LINE_BYTES) as usize;
        match find_end(&mut self.source, &mut self.ahead, limit)? {
            Found::Feed(length) => {
                if length as u64 >= room {
                    return Err(LineFault::Bytes { taken: self.budget });
                }
                let ahead = self.ahead.bytes();
                let line = self.line(without_carriage_return(&ahead[..length]))?;
                self.pass(length + 1);
                Ok(Some(line))
            }
            Found::Last(length) => {
                if length == 0 {
                    return Ok(None);
                }
                let ahead = self.ahead.bytes();
                let line = self.line(ahead)?;
                self.pass(length);
                Ok(Some(line))
            }
            Found::Long => {
                if room > MOST_LINE_BYTES {
                    return Err(LineFault::TooLong { at: self.at });
                }
                Err(LineFault::Bytes { taken: self.budget })
            }
        }
    }

    /// The next line, which has these bytes.
    fn line(&self, bytes: &[u8]) -> Result<Line, AllocError>
        requires short { length bytes.now ≤ MOST_LINE_BYTES }
        requires room { self.now.number < 2 ^ 64 }
        ensures { IfOk result (λ line. line ≡ line_of self.now.comments self.now.at self.now.number bytes.now) }
    {
        let words = words_of_line(self.alloc, bytes, self.comments)?;
        let bytes = Vec::from_slice(self.alloc, bytes)?;
        Ok(Line {
            at: self.at,
            number: self.lines + 1,
            bytes: Bytes::from_vec(bytes),
            words,
        })
    }

    /// Goes on behind a line of so many bytes.
    fn pass(&mut self, size: usize)
        requires some { 0 < size }
        requires there { size ≤ length self.old.ahead }
        requires room { self.old.at + size ≤ self.old.budget }
        ensures { self.new ≡ record self.old { ahead = drop size self.old.ahead; at = self.old.at + size; number = self.old.number + 1 } }
    {
        self.ahead.skip(size);
        self.at += size as u64;
        self.lines += 1;
    }
}
