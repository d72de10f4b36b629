//! Bytes are copied into a buffer.

ghost use Rattle.std.specs.Prelude.{◌≡◌, min, length, take};

/// Copies as many bytes from the front as the buffer has room for, and answers how many.
pub fn copy_front(bytes: &[u8], buf: &mut [u8]) -> usize
    ensures count { result ≡ min (length buf.old) (length bytes.now) }
    ensures bytes { take result buf.new ≡ take result bytes.now }
{
    let count = buf.len().min(bytes.len());
    buf[..count].copy_from_slice(&bytes[..count]);
    count
}
