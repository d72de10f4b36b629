//! Faults of bytes.

use thiserror::Error;

/// Why bytes aren't decoded.
#[derive(Clone, Copy, Debug, PartialEq, Eq, Error)]
pub enum CodecFault {
    /// The bytes are no spelling: so many stand before the first unit that is cut off, or that breaks a rule together
    /// with the units before it; or, where a whole spelling is followed by more bytes, before these.
    #[error("no spelling from byte {at} on")]
    Bad { at: u64 },
    #[error("no memory")]
    Memory,
}
