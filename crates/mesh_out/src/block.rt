//! The block in which bytes wait until they are put into a sink.

ghost use Rattle.std.specs.Prelude.{◌≡◌, ◌≤◌, ◌+◌, [], ◌∷◌, ◌++◌, length, drop, IfOk, OnOk};
ghost use Rattle.fault_counts.specs.Counts.{HasCause};
ghost use Rattle.oemm_io.specs.Whole.{StaysOpen};
ghost use Rattle.mesh_out.specs.Stream.{PutsBefore};

use itoa::{Buffer, Integer};
use oemm_io::{BLOCK, Failed, Sink};
use std::alloc::{AllocError, Global};
use std::marker::Model;

/// No header, vertex or face has more bytes.
pub const RECORD_ROOM: usize = 256;

/// Bytes that wait until they are put into a sink.
#[derive(Drop)]
pub struct Block {
    bytes: Vec<u8>,
    at: usize,
}

impl Model for Block {
    ghost use Rattle.std.specs.Prelude.{◌≤◌, drop, vec_len, vec_capacity};
    ghost use Rattle.mesh_out.specs.Block.{Waiting};
    ghost use Rattle.oemm_io.specs.declared.flows.TheConstants.{BLOCK};

    ghost Value = { Waiting };

    ghost view = { λ a. record { left = drop a.at a.bytes.items; used = vec_len a.bytes } };

    ghost invariant = { λ a. (a.at ≤ vec_len a.bytes) × (BLOCK ≤ vec_capacity a.bytes) };
}

impl Block {
    /// An empty block.
    ///
    /// # Errors
    /// Want of memory.
    pub fn new(alloc: Global) -> Result<Block, AllocError>
        ensures { IfOk result (λ block. block ≡ record { left = []; used = 0 }) }
    {
        let bytes = Vec::with_capacity(alloc, BLOCK)?;
        Ok(Block { bytes, at: 0 })
    }

    /// The bytes that are still to be put.
    pub fn left(&self) -> &[u8]
        ensures { result.now ≡ self.now.left }
    {
        &self.bytes[self.at..]
    }

    /// How many bytes were written into it since it was last empty.
    fn used(&self) -> usize
        ensures { result ≡ self.now.used }
    {
        self.bytes.len()
    }

    /// Takes these bytes behind those that it has.
    pub fn push(&mut self, bytes: &[u8])
        requires { self.old.used + length bytes.now ≤ BLOCK }
        ensures left { self.new.left ≡ self.old.left ++ bytes.now }
        ensures used { self.new.used ≡ self.old.used + length bytes.now }
    {
        match self.bytes.extend_from_slice(bytes) {
            Ok(()) => {}
            Err(_) => unreachable!(),
        }
    }

    /// Takes the digits of a number, and one byte behind them.
    pub fn push_number<I: Integer>(&mut self, n: I, end: u8)
        requires { self.old.used + I.MAX_STR_LEN + 1 ≤ BLOCK }
        ensures left { self.new.left ≡ self.old.left ++ (I.text n ++ end ∷ []) }
        ensures used { self.new.used ≤ self.old.used + I.MAX_STR_LEN + 1 }
    {
        let mut buffer = Buffer::new();
        self.push(buffer.format(n).as_bytes());
        self.push(&[end]);
    }

    /// The first bytes were put.
    fn advance(&mut self, count: usize)
        requires { count ≤ length self.old.left }
        ensures left { self.new.left ≡ drop count self.old.left }
        ensures used { self.new.used ≡ self.old.used }
    {
        self.at += count;
    }

    /// Makes it empty.
    fn clear(&mut self)
        ensures { self.new ≡ record { left = []; used = 0 } }
    {
        self.bytes.clear();
        self.at = 0;
    }
}

/// Puts what waits, so that the block is empty.
#[tactic(auto, using(crate::proofs::Streams::puts_nothing, crate::proofs::Streams::puts_on))]
pub fn flush<O: Sink>(sink: &mut O, block: &mut Block) -> Result<(), Failed>
    ensures ok { OnOk result (block.new ≡ record { left = []; used = 0 }) }
    ensures puts { PutsBefore (O.written sink.old) (O.written sink.new) block.old.left block.new.left }
    ensures open { StaysOpen (O.finished sink.old) (O.finished sink.new) }
    ensures cause { HasCause (O.faults sink.old) (O.faults sink.new) result }
{
    while !block.left().is_empty() {
        let count = sink.put(block.left())?;
        block.advance(count);
    }
    block.clear();
    Ok(())
}

/// Makes room for a header, a vertex or a face: puts what waits, where there is none.
pub fn make_room<O: Sink>(sink: &mut O, block: &mut Block) -> Result<(), Failed>
    ensures ok { OnOk result (block.new.used + RECORD_ROOM ≤ BLOCK) }
    ensures puts { PutsBefore (O.written sink.old) (O.written sink.new) block.old.left block.new.left }
    ensures open { StaysOpen (O.finished sink.old) (O.finished sink.new) }
    ensures cause { HasCause (O.faults sink.old) (O.faults sink.new) result }
{
    if block.used() <= BLOCK - RECORD_ROOM {
        return Ok(());
    }
    flush(sink, block)
}
