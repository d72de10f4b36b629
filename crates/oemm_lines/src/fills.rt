//! Bytes that are taken as they stand.

ghost use Rattle.std.specs.Prelude.{◌≡◌, ◌+◌, ◌-◌, ◌<◌, ◌≤◌, [], ◌++◌, min, length, take, IfOk, OnErr, IfSome, IsErrOf, MatchBool};
ghost use Rattle.fault_counts.specs.Counts.{HasCause, TellsFailure};
ghost use Rattle.fault_counts.specs.Told.{Takes, TakesSome, IsAtEnd};
ghost use Rattle.oemm_lines.specs.Stream.{left_with, most_ahead};

use super::ahead::Ahead;
use oemm_io::{Failed, Source};

/// Why a buffer wasn't filled.
#[derive(Clone, Copy, Debug, PartialEq, Eq)]
pub enum Stop {
    /// The source failed.
    Failed,
    /// A byte that there is no room for is there.
    Past,
}

impl From<Failed> for Stop {
    ghost use Rattle.oemm_lines.specs.declared.fills.Stop.TheVariants.{Failed as StopFailed};

    ghost from_gives = { λ _ stop. stop ≡ StopFailed };

    fn from(_: Failed) -> Stop {
        Stop::Failed
    }
}

/// Reads ahead if no bytes were, and answers whether there are any.
fn some_ahead<S: Source>(source: &mut S, ahead: &mut Ahead) -> Result<bool, Failed>
    requires { length ahead.old ≤ most_ahead }
    ensures left { left_with ahead.old (S.left source.old) ≡ left_with ahead.new (S.left source.new) }
    ensures some { IfOk result (λ some. MatchBool some (0 < length ahead.new)
        ((ahead.new ≡ []) × IsAtEnd (S.left source.new))) }
    ensures grows { length ahead.old ≤ length ahead.new }
    ensures room { length ahead.new ≤ most_ahead }
    ensures asked { OnErr result (ahead.old ≡ []) }
    ensures source { TakesSome (S.left source.old) (S.left source.new) }
    ensures cause { HasCause (S.faults source.old) (S.faults source.new) result }
{
    if !ahead.bytes().is_empty() {
        return Ok(true);
    }
    let count = ahead.fill(source)?;
    Ok(count > 0)
}

/// Copies as many bytes into the buffer behind its first `at` as it has room for, and answers how many.
fn copy_behind(bytes: &[u8], buf: &mut [u8], at: usize) -> usize
    requires { at ≤ length buf.old }
    ensures count { result ≡ min (length bytes.now) (length buf.old - at) }
    ensures bytes { take (at + result) buf.new ≡ take at buf.old ++ take result bytes.now }
{
    let count = bytes.len().min(buf.len() - at);
    buf[at..at + count].copy_from_slice(&bytes[..count]);
    count
}

/// Fills the buffer, and answers how many bytes there are for it.
///
/// # Errors
/// `Failed` where the source fails, and `Past` where more bytes than `room` would be filled in.
pub fn fill_from<S: Source>(
    source: &mut S,
    ahead: &mut Ahead,
    buf: &mut [u8],
    room: u64,
) -> Result<usize, Stop>
    requires { length ahead.old ≤ most_ahead }
    ensures fits { IfOk result (λ n. (n ≤ length buf.new) × (n ≤ room)) }
    ensures taken { IfOk result
        (λ n. Takes (left_with ahead.old (S.left source.old)) (left_with ahead.new (S.left source.new))
        (take n buf.new)) }
    ensures whole { IfOk result (λ n. n < length buf.new → (ahead.new ≡ []) × IsAtEnd (S.left source.new)) }
    ensures lost { OnErr result
        (TakesSome (left_with ahead.old (S.left source.old)) (left_with ahead.new (S.left source.new))) }
    ensures past { IsErrOf result Stop.Past →
        IfSome (left_with ahead.old (S.left source.old)) (λ rest. room < min (length buf.new) (length rest)) }
    ensures wide { IsErrOf result Stop.Past → room < length buf.new }
    ensures asked { IsErrOf result Stop.Failed → length ahead.old < length buf.new }
    ensures room { length ahead.new ≤ most_ahead }
    ensures source { TakesSome (S.left source.old) (S.left source.new) }
    ensures cause { TellsFailure Stop.Failed (S.faults source.old) (S.faults source.new) result }
{
    let mut filled = 0;
    while filled < buf.len() {
        if !some_ahead(source, ahead)? {
            return Ok(filled);
        }
        let count = copy_behind(ahead.bytes(), buf, filled);
        if count as u64 > room - filled as u64 {
            return Err(Stop::Past);
        }
        ahead.skip(count);
        filled += count;
    }
    Ok(filled)
}
