//! Where the next line ends.

ghost use Rattle.std.specs.Prelude.{◌≡◌, ◌<◌, ◌≤◌, length, slice_index, IfOk, OnErr, MatchOption};
ghost use Rattle.fault_counts.specs.Counts.{HasCause};
ghost use Rattle.fault_counts.specs.Told.{TakesSome};
ghost use Rattle.oemm_lines.specs.Stream.{left_with, most_ahead};
ghost use Rattle.oemm_lines.specs.Lines.{HasNoFeed};
ghost use Rattle.oemm_lines.specs.Ends.{IsFound};

use super::ahead::Ahead;
use memchr::memchr;
use oemm_io::{Failed, Source};
use oemm_limits::MOST_LINE_BYTES;

/// Where the next line ends, as far as it was looked at.
#[derive(Clone, Copy)]
pub enum Found {
    /// A line feed stands behind so many bytes.
    Feed(usize),
    /// The source ends behind so many bytes.
    Last(usize),
    /// Among one byte more than the limit no line feed stands.
    Long,
}

/// How many bytes stand before the first line feed among the first `until`, of which `seen` were looked at.
fn feed_from(bytes: &[u8], seen: usize, until: usize) -> Option<usize>
    requires order { seen ≤ until }
    requires within { until ≤ length bytes.now }
    requires none { HasNoFeed bytes.now seen }
    ensures { MatchOption result (HasNoFeed bytes.now until)
        (λ n. (n < until) × HasNoFeed bytes.now n × (slice_index bytes.now n ≡ 10)) }
{
    match memchr(b'\n', &bytes[seen..until]) {
        Some(at) => Some(seen + at),
        None => None,
    }
}

/// Reads ahead until it shows where the next line ends, up to one byte more than the limit.
///
/// # Errors
/// `Failed` where the source fails.
pub fn find_end<S: Source>(source: &mut S, ahead: &mut Ahead, limit: usize) -> Result<Found, Failed>
    requires limit { limit ≤ MOST_LINE_BYTES }
    requires room { length ahead.old ≤ most_ahead }
    ensures left { left_with ahead.old (S.left source.old) ≡ left_with ahead.new (S.left source.new) }
    ensures room { length ahead.new ≤ most_ahead }
    ensures found { IfOk result (λ found. IsFound limit ahead.new (S.left source.new) found) }
    ensures open { OnErr result ((length ahead.new ≤ limit) × HasNoFeed ahead.new (length ahead.new)) }
    ensures source { TakesSome (S.left source.old) (S.left source.new) }
    ensures cause { HasCause (S.faults source.old) (S.faults source.new) result }
{
    let mut seen = 0;
    loop {
        let bytes = ahead.bytes();
        let until = bytes.len().min(limit + 1);
        if let Some(length) = feed_from(bytes, seen, until) {
            return Ok(Found::Feed(length));
        }
        if until > limit {
            return Ok(Found::Long);
        }
        if ahead.fill(source)? == 0 {
            return Ok(Found::Last(until));
        }
        seen = until;
    }
}
