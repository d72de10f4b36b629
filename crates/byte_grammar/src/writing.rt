//! Numbers put at the end of bytes, the lowest byte first.

ghost use Rattle.std.specs.Prelude.{◌≡◌, ◌++◌, OnOk};
ghost use Rattle.byte_grammar.specs.Numbers.{u8_bytes, u16_bytes, u32_bytes, i16_bytes, i32_bytes, i128_bytes};

use byteorder::{ByteOrder, LittleEndian};
use std::alloc::AllocError;

/// Puts a number of one byte at the end.
#[tactic(auto, unfolding(crate::specs::Numbers::u8_bytes))]
pub fn put_u8(out: &mut Vec<u8>, n: u8) -> Result<(), AllocError>
    ensures { OnOk result (out.new.items ≡ out.old.items ++ u8_bytes n) }
{
    out.extend_from_slice(&[n])
}

/// Puts a number of two bytes at the end.
#[tactic(auto, unfolding(crate::specs::Numbers::u16_bytes))]
pub fn put_u16(out: &mut Vec<u8>, n: u16) -> Result<(), AllocError>
    ensures { OnOk result (out.new.items ≡ out.old.items ++ u16_bytes n) }
{
    let mut bytes = [0u8; 2];
    LittleEndian::write_u16(&mut bytes, n);
    out.extend_from_slice(&bytes)
}

/// Puts a number of four bytes at the end.
#[tactic(auto, unfolding(crate::specs::Numbers::u32_bytes))]
pub fn put_u32(out: &mut Vec<u8>, n: u32) -> Result<(), AllocError>
    ensures { OnOk result (out.new.items ≡ out.old.items ++ u32_bytes n) }
{
    let mut bytes = [0u8; 4];
    LittleEndian::write_u32(&mut bytes, n);
    out.extend_from_slice(&bytes)
}

/// Puts a signed number of two bytes at the end.
#[tactic(auto, unfolding(crate::specs::Numbers::i16_bytes))]
pub fn put_i16(out: &mut Vec<u8>, z: i16) -> Result<(), AllocError>
    ensures { OnOk result (out.new.items ≡ out.old.items ++ i16_bytes z) }
{
    let mut bytes = [0u8; 2];
    LittleEndian::write_i16(&mut bytes, z);
    out.extend_from_slice(&bytes)
}

/// Puts a signed number of four bytes at the end.
#[tactic(auto, unfolding(crate::specs::Numbers::i32_bytes))]
pub fn put_i32(out: &mut Vec<u8>, z: i32) -> Result<(), AllocError>
    ensures { OnOk result (out.new.items ≡ out.old.items ++ i32_bytes z) }
{
    let mut bytes = [0u8; 4];
    LittleEndian::write_i32(&mut bytes, z);
    out.extend_from_slice(&bytes)
}

/// Puts a signed number of sixteen bytes at the end.
#[tactic(auto, unfolding(crate::specs::Numbers::i128_bytes))]
pub fn put_i128(out: &mut Vec<u8>, z: i128) -> Result<(), AllocError>
    ensures { OnOk result (out.new.items ≡ out.old.items ++ i128_bytes z) }
{
    let mut bytes = [0u8; 16];
    LittleEndian::write_i128(&mut bytes, z);
    out.extend_from_slice(&bytes)
}
