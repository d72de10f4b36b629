//! The numbers of records.

ghost use Rattle.std.specs.Prelude.{◌≡◌, ◌≤◌, length};
ghost use Rattle.byteorder.specs.Endian.{twos_complement};
ghost use Rattle.ply_header.specs.Layout as layout;
ghost use Rattle.ply_reader.specs.Body as grammar;

use byteorder::{BigEndian, ByteOrder as Endian, LittleEndian};
use ply_header::{ByteOrder, ScalarType};

/// The number of the first bytes, read as two's complement.
fn signed_of(order: ByteOrder, size: usize, bytes: &[u8]) -> i64
    requires some { 1 ≤ size }
    requires short { size ≤ 8 }
    requires there { size ≤ length bytes.now }
    ensures { result ≡ twos_complement size (grammar.bits_of order size bytes.now) }
{
    match order {
        ByteOrder::Little => LittleEndian::read_int(bytes, size),
        ByteOrder::Big => BigEndian::read_int(bytes, size),
    }
}

/// The number of the first two bytes.
fn short_of(order: ByteOrder, bytes: &[u8]) -> u16
    requires { 2 ≤ length bytes.now }
    ensures { result ≡ grammar.bits_of order 2 bytes.now }
{
    match order {
        ByteOrder::Little => LittleEndian::read_u16(bytes),
        ByteOrder::Big => BigEndian::read_u16(bytes),
    }
}

/// The number of the first four bytes.
fn word_of(order: ByteOrder, bytes: &[u8]) -> u32
    requires { 4 ≤ length bytes.now }
    ensures { result ≡ grammar.bits_of order 4 bytes.now }
{
    match order {
        ByteOrder::Little => LittleEndian::read_u32(bytes),
        ByteOrder::Big => BigEndian::read_u32(bytes),
    }
}

/// The first byte as a number.
fn byte_of(order: ByteOrder, bytes: &[u8]) -> u8
    requires { 1 ≤ length bytes.now }
    ensures { result ≡ grammar.bits_of order 1 bytes.now }
{
    bytes[0]
}

/// The whole number that stands at the front, and 0 for a floating-point one.
pub fn number_of(order: ByteOrder, number: ScalarType, bytes: &[u8]) -> i64
    requires { layout.size_of number ≤ length bytes.now }
    ensures { result ≡ grammar.number_of order number bytes.now }
{
    match number {
        ScalarType::I8 => signed_of(order, 1, bytes),
        ScalarType::U8 => i64::from(byte_of(order, bytes)),
        ScalarType::I16 => signed_of(order, 2, bytes),
        ScalarType::U16 => i64::from(short_of(order, bytes)),
        ScalarType::I32 => signed_of(order, 4, bytes),
        ScalarType::U32 => i64::from(word_of(order, bytes)),
        ScalarType::F32 | ScalarType::F64 => 0,
    }
}
