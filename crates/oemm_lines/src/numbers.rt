//! The whole numbers that words write.

ghost use Rattle.std.specs.Prelude.{◌≡◌, ℕ, ◌+◌, ◌-◌, ◌*◌, ◌^◌, ℤ, pos, neg_ℤ, min, MatchOption};
ghost use Rattle.std.specs.Int.{IsInRange};
ghost use Rattle.std.specs.Option.{option_map};
ghost use Rattle.oemm_lines.specs.Numbers.{unsigned_of, integer_of, clamped_unsigned, held_back};

/// The number with one more digit.
fn with_digit(value: u128, digit: u8) -> u128
    requires { IsInRange 48 57 digit }
    ensures { result ≡ clamped_unsigned (value * 10 + (digit - 48)) }
{
    value
        .saturating_mul(10)
        .saturating_add(u128::from(digit - b'0'))
        .min(1 << 127)
}

/// The number as far as 2^62.
fn clamped(value: u128) -> i64
    ensures { result ≡ pos (min value (2 ^ 62)) }
{
    value.min(1 << 62) as i64
}

/// The number below zero as far as -2^62.
fn clamped_below(value: u128) -> i64
    ensures { result ≡ neg_ℤ (pos (min value (2 ^ 62))) }
{
    -clamped(value)
}

/// The number that a word of digits writes: 2^127 stands for each from there on.
pub fn unsigned(word: &[u8]) -> Option<u128>
    ensures value { result ≡ option_map clamped_unsigned (unsigned_of word.now) }
    ensures cases { MatchOption result (unsigned_of word.now ≡ None)
        (λ m. (n : ℕ) × (unsigned_of word.now ≡ Some n) × (m ≡ clamped_unsigned n)) }
{
    if word.is_empty() {
        return None;
    }
    let mut value: u128 = 0;
    for c in word {
        if !c.is_ascii_digit() {
            return None;
        }
        value = with_digit(value, *c);
    }
    Some(value)
}

/// The number that a word of an optional minus and digits writes: 2^62 and -2^62 stand for each from there on.
pub fn integer(word: &[u8]) -> Option<i64>
    ensures value { result ≡ option_map held_back (integer_of word.now) }
    ensures cases { MatchOption result (integer_of word.now ≡ None)
        (λ m. (z : ℤ) × (integer_of word.now ≡ Some z) × (m ≡ held_back z)) }
{
    let (first, digits) = word.split_first()?;
    if *first == b'-' {
        Some(clamped_below(unsigned(digits)?))
    } else {
        Some(clamped(unsigned(word)?))
    }
}
