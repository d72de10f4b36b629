//! The numbers that words write.

ghost use Rattle.std.specs.Prelude.{◌≡◌, ◌+◌, ◌-◌, ◌*◌, ◌^◌, ◌≤◌, ℤ, pos, min, length, MatchOption};
ghost use Rattle.std.specs.List.{list_all};
ghost use Rattle.std.specs.Char.{is_ascii_digit};
ghost use Rattle.oemm_lines.specs.Numbers.{held_back};
ghost use Rattle.off_reader.specs.Numbers as number;

use memchr::{memchr, memchr2};
use oemm_lines::{integer, unsigned};

/// The number as far as 2^62.
fn clamped(value: u128) -> i64
    ensures { result ≡ pos (min value (2 ^ 62)) }
{
    value.min(1 << 62) as i64
}

/// The number that a word writes with an optional sign and digits: 2^62 and -2^62 stand for each from there on.
pub fn signed(word: &[u8]) -> Option<i64>
    ensures { MatchOption result (number.signed_of word.now ≡ None)
        (λ m. (z : ℤ) × (number.signed_of word.now ≡ Some z) × (m ≡ held_back z)) }
{
    let (first, digits) = word.split_first()?;
    if *first == b'+' {
        Some(clamped(unsigned(digits)?))
    } else {
        integer(word)
    }
}

/// The bytes behind a sign, if one stands in front.
fn behind_sign(word: &[u8]) -> &[u8]
    ensures { result.now ≡ number.behind_sign word.now }
{
    match word.split_first() {
        Some((b'+' | b'-', rest)) => rest,
        _ => word,
    }
}

/// What stands in front of the first point, and what stands behind it.
fn split_at_point(text: &[u8]) -> (&[u8], &[u8])
    ensures front { result.0.now ≡ number.before_point text.now }
    ensures back { result.1.now ≡ number.behind_point text.now }
    ensures shorter { length result.0.now + length result.1.now ≤ length text.now }
{
    match memchr(b'.', text) {
        Some(at) => (&text[..at], &text[at + 1..]),
        None => (text, &[]),
    }
}

/// What stands in front of the first letter e, small or capital, and what stands from there on.
fn split_at_letter(text: &[u8]) -> (&[u8], &[u8])
    ensures front { result.0.now ≡ number.before_letter text.now }
    ensures back { result.1.now ≡ number.from_letter text.now }
{
    match memchr2(b'e', b'E', text) {
        Some(at) => text.split_at(at),
        None => (text, &[]),
    }
}

/// Whether all bytes are the digit 0.
fn are_zeros(text: &[u8]) -> bool
    ensures { result ≡ list_all number.is_zero text.now }
{
    text.iter().all(|c| *c == b'0')
}

/// Whether all bytes are digits.
fn are_digits(text: &[u8]) -> bool
    ensures { result ≡ list_all is_ascii_digit text.now }
{
    text.iter().all(|c| c.is_ascii_digit())
}

/// The whole number that a word writes with an optional sign, digits and perhaps a point and zeros: 2^62 and -2^62
/// stand for each from there on.
#[tactic(auto, unfolding(crate::specs::Numbers::coordinate_in))]
pub fn coordinate(word: &[u8]) -> Option<i64>
    ensures { MatchOption result (number.coordinate_in word.now ≡ None)
        (λ m. (z : ℤ) × (number.coordinate_in word.now ≡ Some z) × (m ≡ held_back z)) }
{
    let (front, back) = split_at_point(word);
    if are_zeros(back) { signed(front) } else { None }
}

/// Whether these are digits, one or more, with at most one point among, before or behind them.
#[tactic(auto, unfolding(crate::specs::Numbers::is_mantissa))]
fn is_mantissa(text: &[u8]) -> bool
    ensures { result ≡ number.is_mantissa text.now }
{
    let (front, back) = split_at_point(text);
    are_digits(front) && are_digits(back) && front.len() + back.len() > 0
}

/// Whether this is nothing, or a letter, an optional sign and digits.
fn is_exponent(text: &[u8]) -> bool
    ensures { result ≡ number.is_exponent text.now }
{
    match text.split_first() {
        None => true,
        Some((_, digits)) => signed(digits).is_some(),
    }
}

/// Whether a word writes a decimal number: an optional sign, digits with at most one point, and perhaps an exponent.
#[tactic(auto, unfolding(crate::specs::Numbers::is_decimal))]
pub fn is_decimal(word: &[u8]) -> bool
    ensures { result ≡ number.is_decimal word.now }
{
    let (front, back) = split_at_letter(behind_sign(word));
    is_mantissa(front) && is_exponent(back)
}
