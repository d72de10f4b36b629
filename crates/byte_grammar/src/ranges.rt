//! Numbers that are units of a blob, each with what it may be.

ghost use Rattle.std.specs.Prelude.{◌≡◌, ◌==◌, ◌&&◌, nat_le};
ghost use Rattle.std.specs.Int.{w32};
ghost use Rattle.byte_grammar.specs.Calls.{Gives};
ghost use Rattle.byte_grammar.specs.Reader.{number, number_in, signed, unit};

use crate::numbers::{i32_at, u8_at, u16_at, u32_at};
use crate::stop::Stop;

/// A number of four bytes, and the bytes behind it.
pub fn number_at(bytes: &[u8]) -> Result<(u32, &[u8]), Stop>
    ensures { Gives (λ x. (x.0, x.1.now)) result (number 4 bytes.now) }
{
    let left = bytes.len();
    u32_at(bytes).ok_or(Stop::Bad { left })
}

/// A signed number of four bytes, and the bytes behind it.
pub fn signed_at(bytes: &[u8]) -> Result<(i32, &[u8]), Stop>
    ensures { Gives (λ x. (x.0, x.1.now)) result (signed w32 4 bytes.now) }
{
    let left = bytes.len();
    i32_at(bytes).ok_or(Stop::Bad { left })
}

/// The tag of four bytes that a blob begins with, and the bytes behind it.
pub fn tag_at(tag: u32, bytes: &[u8]) -> Result<(u32, &[u8]), Stop>
    ensures { Gives (λ x. (x.0, x.1.now)) result (unit (λ n. n == tag) (number 4) bytes.now) }
{
    let left = bytes.len();
    match u32_at(bytes) {
        Some((number, rest)) => {
            if number == tag {
                Ok((number, rest))
            } else {
                Err(Stop::Bad { left })
            }
        }
        None => Err(Stop::Bad { left }),
    }
}

/// A number of one byte from low to high, and the bytes behind it.
#[tactic(auto, unfolding(crate::specs::Reader::is_in))]
pub fn u8_in(low: u8, high: u8, bytes: &[u8]) -> Result<(u8, &[u8]), Stop>
    ensures { Gives (λ x. (x.0, x.1.now)) result (number_in low high 1 bytes.now) }
{
    let left = bytes.len();
    match u8_at(bytes) {
        Some((number, rest)) => {
            if low <= number && number <= high {
                Ok((number, rest))
            } else {
                Err(Stop::Bad { left })
            }
        }
        None => Err(Stop::Bad { left }),
    }
}

/// A number of two bytes from low to high, and the bytes behind it.
#[tactic(auto, unfolding(crate::specs::Reader::is_in))]
pub fn u16_in(low: u16, high: u16, bytes: &[u8]) -> Result<(u16, &[u8]), Stop>
    ensures { Gives (λ x. (x.0, x.1.now)) result (number_in low high 2 bytes.now) }
{
    let left = bytes.len();
    match u16_at(bytes) {
        Some((number, rest)) => {
            if low <= number && number <= high {
                Ok((number, rest))
            } else {
                Err(Stop::Bad { left })
            }
        }
        None => Err(Stop::Bad { left }),
    }
}

/// A number of four bytes from low to high, and the bytes behind it.
#[tactic(auto, unfolding(crate::specs::Reader::is_in))]
pub fn u32_in(low: u32, high: u32, bytes: &[u8]) -> Result<(u32, &[u8]), Stop>
    ensures { Gives (λ x. (x.0, x.1.now)) result (number_in low high 4 bytes.now) }
{
    let left = bytes.len();
    match u32_at(bytes) {
        Some((number, rest)) => {
            if low <= number && number <= high {
                Ok((number, rest))
            } else {
                Err(Stop::Bad { left })
            }
        }
        None => Err(Stop::Bad { left }),
    }
}
