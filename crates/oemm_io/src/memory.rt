//! A source and a sink over memory, which tell their bytes and fail at the calls that are listed.

ghost use Rattle.std.specs.Prelude.{◌≡◌, ◌≤◌, ◌<◌, ◌==◌, ◌&&◌, true, length, take, is_err, IfOk, OnOk, OnErr};
ghost use Rattle.fault_counts.specs.Counts.{HasCause};
ghost use Rattle.fault_counts.specs.Told.{Takes, IsAtEnd, Puts};
ghost use Rattle.oemm_io.specs.Memory.{new_input, is_next_listed, taken_count, after_take, after_failed_take};
ghost use Rattle.oemm_io.specs.Memory.{new_output, is_put_failing, put_count, after_put, after_finish, after_failed_call};

use crate::copies::copy_front;
use crate::flows::{Failed, Sink, Source};
use crate::tally::count_fault;
use std::alloc::{AllocError, Global};
use std::marker::Model;

/// A source over bytes in memory.
#[derive(Drop)]
pub struct MemSource {
    bytes: Vec<u8>,
    at: usize,
    failing: Vec<u64>,
    piece: usize,
    calls: u64,
    faults: u64,
}

impl Model for MemSource {
    ghost use Rattle.std.specs.Prelude.{◌≤◌, length, drop};
    ghost use Rattle.oemm_io.specs.Memory.{MemoryInput};

    ghost Value = { MemoryInput };

    ghost view = { λ a. record {
      left = drop a.at a.bytes.items;
      failing = a.failing.items;
      piece = a.piece;
      calls = a.calls;
      faults = a.faults;
    } };

    ghost invariant = { λ a. (a.at ≤ length a.bytes.items) × (1 ≤ a.piece) };
}

impl MemSource {
    /// A source of these bytes, which gives at most `piece` of them at a call.
    ///
    /// Its takes are counted from 1, and those whose numbers are in `failing` fail.
    pub fn new(bytes: Vec<u8>, failing: Vec<u64>, piece: usize) -> MemSource
        requires { 1 ≤ piece }
        ensures { result ≡ new_input bytes.items failing.items piece }
    {
        MemSource {
            bytes,
            at: 0,
            failing,
            piece,
            calls: 0,
            faults: 0,
        }
    }
}

impl Source for MemSource {
    ghost use Rattle.std.specs.Prelude.{Some};

    ghost left = { λ source. Some source.left };

    ghost faults = { λ source. source.faults };

    fn take(&mut self, buf: &mut [u8]) -> Result<usize, Failed>
        ensures within { IfOk result (λ n. n ≤ length buf.old) }
        ensures bytes { IfOk result (λ n. Takes (Some self.old.left) (Some self.new.left) (take n buf.new)) }
        ensures end { IfOk result (λ n. n ≡ 0 → 0 < length buf.old → IsAtEnd (Some self.old.left)) }
        ensures err { OnErr result (self.new.left ≡ self.old.left) }
        ensures cause { HasCause self.old.faults self.new.faults result }
        ensures fails { is_err result ≡ is_next_listed self.old.failing self.old.calls }
        ensures count { IfOk result (λ n. n ≡ taken_count self.old (length buf.old)) }
        ensures after { IfOk result (λ n. self.new ≡ after_take self.old n) }
        ensures after_fault { OnErr result (self.new ≡ after_failed_take self.old) }
    {
        self.calls = self.calls.saturating_add(1);
        if self.failing.contains(&self.calls) {
            return Err(count_fault(&mut self.faults));
        }
        let left = &self.bytes[self.at..];
        let piece = &left[..self.piece.min(left.len())];
        let count = copy_front(piece, buf);
        self.at += count;
        Ok(count)
    }
}

/// A sink over memory.
#[derive(Drop)]
pub struct MemSink {
    bytes: Vec<u8>,
    room: usize,
    failing: Vec<u64>,
    piece: usize,
    calls: u64,
    faults: u64,
    finished: bool,
}

impl Model for MemSink {
    ghost use Rattle.std.specs.Prelude.{◌≤◌, ◌+◌, vec_len, vec_capacity};
    ghost use Rattle.oemm_io.specs.Memory.{MemoryOutput};

    ghost Value = { MemoryOutput };

    ghost view = { λ a. record {
      written = a.bytes.items;
      room = a.room;
      failing = a.failing.items;
      piece = a.piece;
      calls = a.calls;
      faults = a.faults;
      finished = a.finished;
    } };

    ghost invariant = { λ a. (vec_len a.bytes + a.room ≤ vec_capacity a.bytes) × (1 ≤ a.piece) };
}

impl MemSink {
    /// An empty sink that takes at most `room` bytes in all, and at most `piece` of them at a call.
    ///
    /// Its puts and finishes are counted together from 1, and those whose numbers are in `failing`
    /// fail. So does each put when no room is left.
    ///
    /// # Errors
    /// Where the room can't be had.
    pub fn with_room(
        alloc: Global,
        room: usize,
        failing: Vec<u64>,
        piece: usize,
    ) -> Result<MemSink, AllocError>
        requires { 1 ≤ piece }
        ensures { IfOk result (λ sink. sink ≡ new_output room failing.items piece) }
    {
        let bytes = Vec::with_capacity(alloc, room)?;
        Ok(MemSink {
            bytes,
            room,
            failing,
            piece,
            calls: 0,
            faults: 0,
            finished: false,
        })
    }

    /// What it holds.
    pub fn bytes(&self) -> &[u8]
        ensures { result.now ≡ self.now.written }
    {
        self.bytes.as_slice()
    }
}

impl Sink for MemSink {
    ghost use Rattle.std.specs.Prelude.{Some};

    ghost written = { λ sink. Some sink.written };

    ghost faults = { λ sink. sink.faults };

    ghost finished = { λ sink. sink.finished };

    fn put(&mut self, bytes: &[u8]) -> Result<usize, Failed>
        ensures within { IfOk result (λ n. n ≤ length bytes.now) }
        ensures some { IfOk result (λ n. 0 < length bytes.now → 0 < n) }
        ensures written { IfOk result (λ n. Puts (Some self.old.written) (Some self.new.written) (take n bytes.now)) }
        ensures open { IfOk result (λ n. self.new.finished ≡ (self.old.finished && n == 0)) }
        ensures err { OnErr result ((self.new.written ≡ self.old.written) × (self.new.finished ≡ self.old.finished)) }
        ensures cause { HasCause self.old.faults self.new.faults result }
        ensures fails { is_err result ≡ is_put_failing self.old }
        ensures count { IfOk result (λ n. n ≡ put_count self.old (length bytes.now)) }
        ensures after { IfOk result (λ n. self.new ≡ after_put self.old (take n bytes.now)) }
        ensures after_fault { OnErr result (self.new ≡ after_failed_call self.old) }
    {
        self.calls = self.calls.saturating_add(1);
        if self.failing.contains(&self.calls) || self.room == 0 {
            return Err(count_fault(&mut self.faults));
        }
        let count = bytes.len().min(self.piece.min(self.room));
        match self.bytes.extend_from_slice(&bytes[..count]) {
            Ok(()) => {}
            Err(_) => unreachable!(),
        }
        self.room -= count;
        self.finished = self.finished && count == 0;
        Ok(count)
    }

    fn finish(&mut self) -> Result<(), Failed>
        ensures written { self.new.written ≡ self.old.written }
        ensures finished { OnOk result (self.new.finished ≡ true) }
        ensures err { OnErr result (self.new.finished ≡ self.old.finished) }
        ensures cause { HasCause self.old.faults self.new.faults result }
        ensures fails { is_err result ≡ is_next_listed self.old.failing self.old.calls }
        ensures after { OnOk result (self.new ≡ after_finish self.old) }
        ensures after_fault { OnErr result (self.new ≡ after_failed_call self.old) }
    {
        self.calls = self.calls.saturating_add(1);
        if self.failing.contains(&self.calls) {
            return Err(count_fault(&mut self.faults));
        }
        self.finished = true;
        Ok(())
    }
}
