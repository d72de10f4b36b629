//! Formats of blobs, their tags and limits, and counts of lists.

ghost use Rattle.std.specs.Prelude.{◌≡◌, ◌≤◌, ◌++◌, OnOk};
ghost use Rattle.byte_grammar.specs.Calls.{Gives};
ghost use Rattle.byte_grammar.specs.Numbers.{u32_bytes};
ghost use Rattle.leaf_codec.specs.Formats.{format, count};

use byte_grammar::{Stop, put_u32, u16_in, u32_in};
use std::alloc::AllocError;

/// The newest format.
pub const NEWEST: u16 = 1;

/// "OEML", the lowest byte first.
pub const LEAF_TAG: u32 = 0x4c4d_454f;

/// "OEMI", the lowest byte first.
pub const INDEX_TAG: u32 = 0x494d_454f;

/// "OEME", the lowest byte first.
pub const ENTRY_TAG: u32 = 0x454d_454f;

/// The greatest number of units of a list.
pub const MOST_UNITS: u32 = 1 << 26;

/// The format, and the bytes behind it.
pub fn format_at(bytes: &[u8]) -> Result<(u16, &[u8]), Stop>
    ensures { Gives (λ x. (x.0, x.1.now)) result (format bytes.now) }
{
    u16_in(1, NEWEST, bytes)
}

/// The number of a list's units, and the bytes behind it.
pub fn count_at(bytes: &[u8]) -> Result<(u32, &[u8]), Stop>
    ensures { Gives (λ x. (x.0, x.1.now)) result (count bytes.now) }
{
    u32_in(0, MOST_UNITS, bytes)
}

/// Puts the number of a list's units at the end.
pub fn put_count(out: &mut Vec<u8>, count: usize) -> Result<(), AllocError>
    requires { count ≤ MOST_UNITS }
    ensures { OnOk result (out.new.items ≡ out.old.items ++ u32_bytes count) }
{
    put_u32(out, count as u32)
}
