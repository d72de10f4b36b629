//! A source over bytes that are held.

ghost use Rattle.std.specs.Prelude.{Some};

use oemm_io::{Failed, Source};

/// The bytes that are left of those that are held. It never fails.
#[derive(Drop)]
pub struct ByteSource<'a> {
    pub left: &'a [u8],
}

impl Source for ByteSource<'_> {
    ghost left = { λ held. Some held.left.now };

    ghost faults = { λ _. 0 };

    fn take(&mut self, buf: &mut [u8]) -> Result<usize, Failed> {
        let count = buf.len().min(self.left.len());
        let (front, rest) = self.left.split_at(count);
        buf[..count].copy_from_slice(front);
        self.left = rest;
        Ok(count)
    }
}
