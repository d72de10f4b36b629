//! All bytes of a source, and all bytes into a sink.

ghost use Rattle.std.specs.Prelude.{◌≡◌, ◌≤◌, true, IfOk, OnOk, OnErr, IsErrOf, vec_len};
ghost use Rattle.fault_counts.specs.Counts.{HasCause, TellsFailure};
ghost use Rattle.fault_counts.specs.Told.{Takes, TakesSome, IsAtEnd, Puts, PutsPrefix};
ghost use Rattle.oemm_io.specs.Whole.{IsLongerThan, StaysOpen};

use crate::flows::{BLOCK, Failed, Sink, Source};
use std::alloc::{AllocError, Global};

/// What can keep a source from being taken whole.
#[derive(Clone, Copy, Debug, PartialEq, Eq)]
pub enum TakeFault {
    /// The source failed.
    Failed,
    /// It has more bytes than the limit.
    TooMany,
    /// Memory is wanting.
    Memory,
}

impl From<AllocError> for TakeFault {
    ghost use Rattle.oemm_io.specs.declared.whole.TakeFault.TheVariants.{Memory};

    ghost from_gives = { λ _ fault. fault ≡ Memory };

    fn from(_: AllocError) -> TakeFault {
        TakeFault::Memory
    }
}

impl From<Failed> for TakeFault {
    ghost use Rattle.oemm_io.specs.declared.whole.TakeFault.TheVariants.{Failed as TakeFailed};

    ghost from_gives = { λ _ fault. fault ≡ TakeFailed };

    fn from(_: Failed) -> TakeFault {
        TakeFault::Failed
    }
}

/// Takes all that the source gives, where that is at most `limit` bytes.
///
/// # Errors
/// `TooMany` where there are more, `Failed` where the source fails, and `Memory`. Each time the source
/// has lost the bytes that were taken until then.
pub fn take_all<S: Source>(
    alloc: Global,
    mut source: S,
    limit: usize,
) -> (S, Result<Vec<u8>, TakeFault>)
    ensures all { IfOk result.1 (λ bytes. Takes (S.left source) (S.left result.0) bytes.items) }
    ensures end { OnOk result.1 (IsAtEnd (S.left result.0)) }
    ensures within { IfOk result.1 (λ bytes. vec_len bytes ≤ limit) }
    ensures some { TakesSome (S.left source) (S.left result.0) }
    ensures too_many { IsErrOf result.1 TakeFault.TooMany → IsLongerThan (S.left source) limit }
    ensures cause { TellsFailure TakeFault.Failed (S.faults source) (S.faults result.0) result.1 }
{
    let taken = take_blocks(alloc, &mut source, limit);
    (source, taken)
}

#[tactic(auto, using(fault_counts::proofs::InRow::takes_none, fault_counts::proofs::InRow::takes_more, crate::proofs::Told::takes_longer))]
fn take_blocks<S: Source>(alloc: Global, source: &mut S, limit: usize) -> Result<Vec<u8>, TakeFault>
    ensures all { IfOk result (λ bytes. Takes (S.left source.old) (S.left source.new) bytes.items) }
    ensures end { OnOk result (IsAtEnd (S.left source.new)) }
    ensures within { IfOk result (λ bytes. vec_len bytes ≤ limit) }
    ensures some { TakesSome (S.left source.old) (S.left source.new) }
    ensures too_many { IsErrOf result TakeFault.TooMany → IsLongerThan (S.left source.old) limit }
    ensures cause { TellsFailure TakeFault.Failed (S.faults source.old) (S.faults source.new) result }
{
    let mut bytes = Vec::new(alloc);
    let mut block = zeros(alloc, BLOCK)?;
    loop {
        let count = source.take(&mut block)?;
        if count == 0 {
            return Ok(bytes);
        }
        if count > limit - bytes.len() {
            return Err(TakeFault::TooMany);
        }
        bytes.extend_from_slice(&block[..count])?;
    }
}

fn zeros(alloc: Global, count: usize) -> Result<Vec<u8>, AllocError>
    ensures { IfOk result (λ block. vec_len block ≡ count) }
{
    vec![in alloc; 0; count]
}

/// Puts all the bytes, and finishes the sink.
///
/// # Errors
/// `Failed` where the sink fails. It then has a prefix of the bytes, and is finished only if it was
/// before.
pub fn put_all<O: Sink>(mut sink: O, bytes: &[u8]) -> (O, Result<(), Failed>)
    ensures ok { OnOk result.1 (Puts (O.written sink) (O.written result.0) bytes.now) }
    ensures finished { OnOk result.1 (O.finished result.0 ≡ true) }
    ensures open { OnErr result.1 (StaysOpen (O.finished sink) (O.finished result.0)) }
    ensures front { PutsPrefix (O.written sink) (O.written result.0) bytes.now }
    ensures cause { HasCause (O.faults sink) (O.faults result.0) result.1 }
{
    let done = put_pieces(&mut sink, bytes);
    (sink, done)
}

#[tactic(auto, using(fault_counts::proofs::InRow::puts_none, crate::proofs::Told::puts_next))]
fn put_pieces<O: Sink>(sink: &mut O, bytes: &[u8]) -> Result<(), Failed>
    ensures ok { OnOk result (Puts (O.written sink.old) (O.written sink.new) bytes.now) }
    ensures finished { OnOk result (O.finished sink.new ≡ true) }
    ensures open { OnErr result (StaysOpen (O.finished sink.old) (O.finished sink.new)) }
    ensures front { PutsPrefix (O.written sink.old) (O.written sink.new) bytes.now }
    ensures cause { HasCause (O.faults sink.old) (O.faults sink.new) result }
{
    let mut at = 0;
    while at < bytes.len() {
        at += sink.put(&bytes[at..])?;
    }
    sink.finish()
}
