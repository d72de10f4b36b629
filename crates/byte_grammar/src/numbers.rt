//! Numbers at the front of bytes, the lowest byte first.

ghost use Rattle.std.specs.Prelude.{◌≡◌};
ghost use Rattle.std.specs.Int.{w16, w32, w128};
ghost use Rattle.byte_grammar.specs.Calls.{Finds};
ghost use Rattle.byte_grammar.specs.Reader.{number, signed};

use byteorder::{ByteOrder, LittleEndian};

/// A number of one byte, and the bytes behind it.
pub fn u8_at(bytes: &[u8]) -> Option<(u8, &[u8])>
    ensures { Finds (λ x. (x.0, x.1.now)) result (number 1 bytes.now) }
{
    if bytes.is_empty() {
        return None;
    }
    Some((bytes[0], &bytes[1..]))
}

/// A number of two bytes, and the bytes behind it.
pub fn u16_at(bytes: &[u8]) -> Option<(u16, &[u8])>
    ensures { Finds (λ x. (x.0, x.1.now)) result (number 2 bytes.now) }
{
    if bytes.len() < 2 {
        return None;
    }
    Some((LittleEndian::read_u16(bytes), &bytes[2..]))
}

/// A number of four bytes, and the bytes behind it.
pub fn u32_at(bytes: &[u8]) -> Option<(u32, &[u8])>
    ensures { Finds (λ x. (x.0, x.1.now)) result (number 4 bytes.now) }
{
    if bytes.len() < 4 {
        return None;
    }
    Some((LittleEndian::read_u32(bytes), &bytes[4..]))
}

/// A signed number of two bytes, and the bytes behind it.
pub fn i16_at(bytes: &[u8]) -> Option<(i16, &[u8])>
    ensures { Finds (λ x. (x.0, x.1.now)) result (signed w16 2 bytes.now) }
{
    if bytes.len() < 2 {
        return None;
    }
    Some((LittleEndian::read_i16(bytes), &bytes[2..]))
}

/// A signed number of four bytes, and the bytes behind it.
pub fn i32_at(bytes: &[u8]) -> Option<(i32, &[u8])>
    ensures { Finds (λ x. (x.0, x.1.now)) result (signed w32 4 bytes.now) }
{
    if bytes.len() < 4 {
        return None;
    }
    Some((LittleEndian::read_i32(bytes), &bytes[4..]))
}

/// A signed number of sixteen bytes, and the bytes behind it.
pub fn i128_at(bytes: &[u8]) -> Option<(i128, &[u8])>
    ensures { Finds (λ x. (x.0, x.1.now)) result (signed w128 16 bytes.now) }
{
    if bytes.len() < 16 {
        return None;
    }
    Some((LittleEndian::read_i128(bytes), &bytes[16..]))
}
