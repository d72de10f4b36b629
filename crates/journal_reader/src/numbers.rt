//! Numbers in a line, as texts write them, each with a text behind it.

ghost use Rattle.std.specs.Prelude.{◌≡◌, ◌<◌, ◌≤◌, ◌^◌, position, IfSome};
ghost use Rattle.byte_grammar.specs.Calls.{Finds};
ghost use Rattle.byte_grammar.specs.Reader.{unit};
ghost use Rattle.oemm_octree.specs.Octree.{on_grid};
ghost use Rattle.leaf_codec.specs.Replies.{is_cost};
ghost use Rattle.journal_reader.specs.Numbers.{below_zero, coordinate_before, is_end, number_of, number_before, point_before, signed_before};

use itoa::Buffer;
use oemm_limits::MOST_COST;
use oemm_lines::unsigned;
use oemm_octree::Point;

/// The greatest name, and the greatest number of an entry.
pub const MOST_NUMBER: u128 = u32::MAX as u128;

/// The greatest size of a coordinate.
pub const MOST_SIZE: u128 = 1 << 15;

/// The number that a word writes as texts do, without leading zeros, up to the greatest one that may stand there.
#[tactic(auto, unfolding(crate::specs::Numbers::number_of))]
fn number_of(most: u128, word: &[u8]) -> Option<u128>
    requires { most < 2 ^ 127 }
    ensures value { result ≡ number_of most word.now }
    ensures within { IfSome result (λ n. n ≤ most) }
{
    let n = unsigned(word)?;
    let mut buffer = Buffer::new();
    if n <= most && buffer.format(n).as_bytes() == word {
        Some(n)
    } else {
        None
    }
}

/// How many bytes stand in front of the first space or line feed.
fn end_of_word(bytes: &[u8]) -> Option<usize>
    ensures { result ≡ position is_end bytes.now }
{
    bytes.iter().position(|c| *c == b' ' || *c == b'\n')
}

/// A number, and the bytes behind the text that stands behind it.
#[tactic(auto, unfolding(crate::specs::Numbers::number_before))]
pub fn number_before<'a>(text: &[u8], most: u128, bytes: &'a [u8]) -> Option<(u128, &'a [u8])>
    requires { most < 2 ^ 127 }
    ensures value { Finds (λ x. (x.0, x.1.now)) result (number_before text.now most bytes.now) }
    ensures within { IfSome result (λ x. x.0 ≤ most) }
{
    let end = end_of_word(bytes)?;
    let (word, rest) = bytes.split_at(end);
    let n = number_of(most, word)?;
    let rest = rest.strip_prefix(text)?;
    Some((n, rest))
}

/// A number below zero, without its sign, and the bytes behind the text that stands behind it.
fn below_zero<'a>(text: &[u8], most: u128, bytes: &'a [u8]) -> Option<(i128, &'a [u8])>
    requires { most < 2 ^ 127 }
    ensures { Finds (λ x. (x.0, x.1.now)) result (below_zero text.now most bytes.now) }
{
    let (n, rest) = number_before(text, most, bytes)?;
    if n == 0 {
        return None;
    }
    Some((-(n as i128), rest))
}

/// A number of an optional minus and digits, and the bytes behind the text that stands behind it.
#[tactic(auto, unfolding(crate::specs::Numbers::signed_before))]
pub fn signed_before<'a>(text: &[u8], most: u128, bytes: &'a [u8]) -> Option<(i128, &'a [u8])>
    requires { most < 2 ^ 127 }
    ensures { Finds (λ x. (x.0, x.1.now)) result (signed_before text.now most bytes.now) }
{
    if let Some(digits) = bytes.strip_prefix(b"-") {
        below_zero(text, most, digits)
    } else {
        let (n, rest) = number_before(text, most, bytes)?;
        Some((n as i128, rest))
    }
}

/// A name's number, or that of an entry, and the bytes behind the text that stands behind it.
pub fn name_before<'a>(text: &[u8], bytes: &'a [u8]) -> Option<(u32, &'a [u8])>
    ensures { Finds (λ x. (x.0, x.1.now)) result (number_before text.now MOST_NUMBER bytes.now) }
{
    let (n, rest) = number_before(text, MOST_NUMBER, bytes)?;
    Some((n as u32, rest))
}

/// A cost, and the bytes behind the text that stands behind it.
pub fn cost_before<'a>(text: &[u8], bytes: &'a [u8]) -> Option<(i128, &'a [u8])>
    ensures { Finds (λ x. (x.0, x.1.now)) result (signed_before text.now MOST_COST bytes.now) }
{
    signed_before(text, MOST_COST, bytes)
}

/// A coordinate, and the bytes behind the text that stands behind it.
#[tactic(auto, unfolding(crate::specs::Numbers::coordinate_before))]
pub fn coordinate_before<'a>(text: &[u8], bytes: &'a [u8]) -> Option<(i16, &'a [u8])>
    ensures { Finds (λ x. (x.0, x.1.now)) result (coordinate_before text.now bytes.now) }
{
    let (n, rest) = signed_before(text, MOST_SIZE, bytes)?;
    if (-32768..=32767).contains(&n) {
        Some((n as i16, rest))
    } else {
        None
    }
}

/// A point, and the bytes behind the text that stands behind it.
#[tactic(auto, unfolding(crate::specs::Numbers::point_before))]
pub fn point_before<'a>(text: &[u8], bytes: &'a [u8]) -> Option<(Point, &'a [u8])>
    ensures { Finds (λ x. (x.0, x.1.now)) result (point_before text.now bytes.now) }
{
    let (x, rest) = coordinate_before(b" ", bytes)?;
    let (y, rest) = coordinate_before(b" ", rest)?;
    let (z, rest) = coordinate_before(text, rest)?;
    Some((Point { x, y, z }, rest))
}
