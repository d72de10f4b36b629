//! The bytes behind a header.

ghost use Rattle.std.specs.Prelude.{◌≡◌, ◌+◌, ◌-◌, ◌<◌, ◌≤◌, length, take, slice_range, IfErr, IfOk, OnOk};
ghost use Rattle.fault_counts.specs.Told.{Takes};
ghost use Rattle.oemm_lines.specs.Stream.{left_of, IsDrained, UsesSource};

use mesh_items::{MeshFault, MeshWhy, fault_at, fault_of_lines};
use oemm_io::Source;
use oemm_limits::MOST_MESH_BYTES;
use oemm_lines::{Line, LineFault, Lines};
use std::marker::Model;

/// How many bytes are taken at a time.
const BLOCK: usize = 4096;

/// The bytes behind the lines of a source, of which a block is taken at a time.
#[derive(Drop)]
pub struct Feed<S> {
    lines: Lines<S>,
    buffer: [u8; BLOCK],
    from: usize,
    to: usize,
}

impl<S> Model for Feed<S> {
    ghost use Rattle.std.specs.Prelude.{◌≡◌, ◌≤◌, length, slice_range};
    ghost use Rattle.ply_reader.specs.Feed.{Feed};
    ghost use Rattle.ply_reader.specs.declared.feed.TheConstants.{BLOCK};
    ghost use Rattle.oemm_limits.specs.declared.TheConstants.{MOST_MESH_BYTES};

    ghost Value = { Feed S };

    ghost view = { λ a. record { stream = a.lines; ahead = slice_range a.buffer a.from a.to } };

    ghost invariant = { λ a. (a.from ≤ a.to) × (a.to ≤ BLOCK) × (length (slice_range a.buffer a.from a.to) ≤ a.lines.at) × (a.lines.budget ≡ MOST_MESH_BYTES) };
}

/// Moves a part of the buffer to its front, and answers how long it is.
fn moved_to_front(buffer: &mut [u8], from: usize, to: usize) -> usize
    requires order { from ≤ to }
    requires within { to ≤ length buffer.old }
    ensures kept { slice_range buffer.new 0 result ≡ slice_range buffer.old from to }
    ensures size { result ≡ to - from }
{
    buffer.copy_within(from..to, 0);
    to - from
}

/// Takes so many raw bytes within the budget into a buffer from a place on, and answers how many there were.
fn raw_into<S: Source>(
    lines: &mut Lines<S>,
    buffer: &mut [u8],
    at: usize,
    size: usize,
) -> Result<usize, LineFault>
    requires calm { lines.old.fault ≡ None }
    requires within { at + size ≤ length buffer.old }
    requires room { lines.old.at + size ≤ lines.old.budget }
    ensures front { take at buffer.new ≡ take at buffer.old }
    ensures calm { OnOk result (lines.new.fault ≡ None) }
    ensures size { IfOk result (λ n. n ≤ size) }
    ensures taken { IfOk result
        (λ n. Takes (left_of S.left lines.old) (left_of S.left lines.new) (slice_range buffer.new at (at + n))) }
    ensures part { IfOk result (λ n. length (slice_range buffer.new at (at + n)) ≡ n) }
    ensures end { IfOk result (λ n. n < size → IsDrained S.left lines.new) }
    ensures place { IfOk result (λ n. lines.new.at ≡ lines.old.at + n) }
    ensures limit { OnOk result (lines.new.at ≤ lines.old.budget) }
    ensures budget { lines.new.budget ≡ lines.old.budget }
    ensures fault { IfErr result (λ fault. fault ≡ LineFault.Read) }
    ensures uses { UsesSource S.left S.faults LineFault.Read lines.old lines.new result }
{
    lines.raw(&mut buffer[at..at + size])
}

impl<S> Feed<S> {
    ghost use Rattle.std.specs.Prelude.{◌≡◌, ◌-◌, [], length};

    /// The bytes behind the lines that were read.
    pub fn new(lines: Lines<S>) -> Feed<S>
        requires { lines.budget ≡ MOST_MESH_BYTES }
        ensures { result ≡ record { stream = lines; ahead = [] } }
    {
        Feed {
            lines,
            buffer: [0; BLOCK],
            from: 0,
            to: 0,
        }
    }

    /// The source. The bytes that were taken and not given are lost.
    pub fn into_source(self) -> S
        ensures { result ≡ self.stream.source }
    {
        let Feed { lines, .. } = self;
        lines.into_source()
    }

    /// The bytes that were taken and not yet given.
    pub fn bytes(&self) -> &[u8]
        ensures { result.now ≡ self.now.ahead }
    {
        &self.buffer[self.from..self.to]
    }

    /// How many bytes stand before them.
    pub fn place(&self) -> u64
        ensures { result ≡ self.now.stream.at - length self.now.ahead }
    {
        self.lines.at() - self.bytes().len() as u64
    }
}

impl<S: Source> Feed<S> {
    ghost use Rattle.std.specs.Prelude.{◌≡◌, ◌+◌, ◌<◌, ◌≤◌, drop, length, IfErr, IfOk, IfSome, OnOk};
    ghost use Rattle.std.specs.Option.{option_map};
    ghost use Rattle.fault_counts.specs.Told.{IsAtEnd};
    ghost use Rattle.oemm_lines.specs.Stream.{left_of, GivesLine, UsesSource};
    ghost use Rattle.ply_reader.specs.Reader.{HasLines, StopsLines};
    ghost use Rattle.ply_reader.specs.Body.{forward, passed};
    ghost use Rattle.ply_reader.specs.Feed.{rest_left, FailsBeyond, IsOpen, Passes, Stays};

    /// The next line of the header.
    ///
    /// # Errors
    /// `Cut` where the source has no byte left, and the fault that stands in the line's place.
    pub fn line(&mut self) -> Result<Line, MeshFault>
        requires lines { HasLines self.old }
        ensures lines { OnOk result (HasLines self.new) }
        ensures gives { IfOk result (λ line. GivesLine S.left self.old.stream line self.new.stream) }
        ensures stops { IfErr result (λ fault. StopsLines S.left self.old.stream fault self.new.stream) }
        ensures rises { OnOk result (self.old.stream.at < self.new.stream.at) }
        ensures uses { UsesSource S.left S.faults MeshFault.Read self.old.stream self.new.stream result }
    {
        match self.lines.next() {
            Ok(Some(line)) => Ok(line),
            Ok(None) => Err(fault_at(self.lines.at(), MeshWhy::Cut)),
            Err(fault) => Err(fault_of_lines(fault)),
        }
    }

    /// Lets the first bytes go.
    pub fn skip(&mut self, count: usize)
        requires { count ≤ length self.old.ahead }
        ensures ahead { self.new ≡ record self.old { ahead = drop count self.old.ahead } }
        ensures rest { rest_left S.left self.new ≡ option_map (forward count) (rest_left S.left self.old) }
        ensures limit { IsOpen self.old →
            IfSome (rest_left S.left self.old) (λ r. (r.at + count ≤ MOST_MESH_BYTES) × (count ≤ length r.bytes)) }
    {
        self.from += count;
    }

    /// Where as many bytes were taken as can be, finds out whether there are more.
    ///
    /// # Errors
    /// `TooMany` where there are more, `Read` where the source fails, and `Memory`.
    fn expect_end(&mut self) -> Result<(), MeshFault>
        requires open { IsOpen self.old }
        requires full { self.old.stream.at ≡ MOST_MESH_BYTES }
        ensures same { OnOk result (rest_left S.left self.new ≡ rest_left S.left self.old) }
        ensures ahead { self.new.ahead ≡ self.old.ahead }
        ensures end { OnOk result (IsAtEnd (left_of S.left self.new.stream)) }
        ensures open { OnOk result (IsOpen self.new) }
        ensures beyond { IfErr result
            (λ fault. FailsBeyond (length self.old.ahead) (rest_left S.left self.old) fault
            (rest_left S.left self.new)) }
        ensures uses { UsesSource S.left S.faults MeshFault.Read self.old.stream self.new.stream result }
    {
        if let Err(fault) = self.lines.next() {
            return Err(fault_of_lines(fault));
        }
        Ok(())
    }

    /// Takes a block behind the bytes, or as much of one as there is, and answers how many bytes that was.
    ///
    /// # Errors
    /// `Read` where the source fails.
    fn take_block(&mut self) -> Result<usize, MeshFault>
        requires open { IsOpen self.old }
        requires short { length self.old.ahead < BLOCK }
        requires room { self.old.stream.at < MOST_MESH_BYTES }
        ensures same { OnOk result (rest_left S.left self.new ≡ rest_left S.left self.old) }
        ensures count { IfOk result (λ n. length self.new.ahead ≡ length self.old.ahead + n) }
        ensures end { IfOk result (λ n. n ≡ 0 → IsAtEnd (left_of S.left self.new.stream)) }
        ensures open { OnOk result (IsOpen self.new) }
        ensures beyond { IfErr result
            (λ fault. FailsBeyond (length self.old.ahead) (rest_left S.left self.old) fault
            (rest_left S.left self.new)) }
        ensures uses { UsesSource S.left S.faults MeshFault.Read self.old.stream self.new.stream result }
    {
        let to = moved_to_front(&mut self.buffer, self.from, self.to);
        let room = MOST_MESH_BYTES - self.lines.at();
        let size = room.min((BLOCK - to) as u64) as usize;
        let taken = raw_into(&mut self.lines, &mut self.buffer, to, size);
        self.from = 0;
        match taken {
            Ok(count) => {
                self.to = to + count;
                Ok(count)
            }
            Err(fault) => {
                self.to = 0;
                Err(fault_of_lines(fault))
            }
        }
    }

    /// Takes more bytes, if there are any, and answers how many that was.
    ///
    /// # Errors
    /// `TooMany` where there is a byte past the limit, `Read` where the source fails, and `Memory`.
    fn refill(&mut self) -> Result<usize, MeshFault>
        requires open { IsOpen self.old }
        requires short { length self.old.ahead < BLOCK }
        ensures same { OnOk result (rest_left S.left self.new ≡ rest_left S.left self.old) }
        ensures count { IfOk result (λ n. length self.new.ahead ≡ length self.old.ahead + n) }
        ensures end { IfOk result (λ n. n ≡ 0 → IsAtEnd (left_of S.left self.new.stream)) }
        ensures open { OnOk result (IsOpen self.new) }
        ensures beyond { IfErr result
            (λ fault. FailsBeyond (length self.old.ahead) (rest_left S.left self.old) fault
            (rest_left S.left self.new)) }
        ensures uses { UsesSource S.left S.faults MeshFault.Read self.old.stream self.new.stream result }
    {
        if self.lines.at() < MOST_MESH_BYTES {
            return self.take_block();
        }
        self.expect_end()?;
        Ok(0)
    }

    /// The fault of a mesh of which bytes are needed behind the last one.
    fn cut(&self) -> MeshFault
        ensures fault { result ≡ MeshFault.Text self.now.stream.at MeshWhy.Cut }
        ensures within { length self.now.ahead ≤ self.now.stream.at }
    {
        fault_at(self.lines.at(), MeshWhy::Cut)
    }

    /// Takes bytes until there are so many.
    ///
    /// # Errors
    /// `Cut` where the source has fewer, `TooMany` where one of them lies past the limit, `Read` and `Memory`.
    pub fn need(&mut self, count: usize) -> Result<(), MeshFault>
        requires open { IsOpen self.old }
        requires few { count ≤ 64 }
        ensures there { OnOk result (count ≤ length self.new.ahead) }
        ensures rest { Stays (passed count) (rest_left S.left self.old) result (rest_left S.left self.new) }
        ensures open { OnOk result (IsOpen self.new) }
        ensures uses { UsesSource S.left S.faults MeshFault.Read self.old.stream self.new.stream result }
    {
        while self.bytes().len() < count {
            let more = self.refill()?;
            if more == 0 {
                return Err(self.cut());
            }
        }
        Ok(())
    }

    /// Passes over so many bytes.
    ///
    /// # Errors
    /// As those of `need`.
    pub fn pass(&mut self, count: u128) -> Result<(), MeshFault>
        requires { IsOpen self.old }
        ensures passes { Passes (passed count) (rest_left S.left self.old) result (rest_left S.left self.new) }
        ensures open { OnOk result (IsOpen self.new) }
        ensures uses { UsesSource S.left S.faults MeshFault.Read self.old.stream self.new.stream result }
    {
        let mut left = count;
        while left > 0 {
            self.need(1)?;
            let step = left.min(self.bytes().len() as u128);
            self.skip(step as usize);
            left -= step;
        }
        Ok(())
    }
}
