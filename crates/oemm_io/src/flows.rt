//! What a source and a sink do.

ghost use Rattle.std.specs.Prelude.{◌≡◌, ℕ, ◌≤◌, ◌<◌, ◌==◌, ◌&&◌, Bool, true, length, take, IfOk, OnOk, OnErr};
ghost use Rattle.fault_counts.specs.Counts.{HasCause};
ghost use Rattle.fault_counts.specs.Told.{Told, Takes, IsAtEnd, Puts};

/// How many bytes are asked of a source, or put into a sink, at a time.
pub const BLOCK: usize = 1 << 16;

/// A call of a source or a sink failed.
#[derive(Clone, Copy, Debug, PartialEq, Eq)]
pub struct Failed;

/// Bytes that are taken from the front, a piece at a call.
pub trait Source {
    /// The bytes that are left, or none where the source doesn't tell them.
    ghost left: { Self → Told };

    /// How often it has failed.
    ghost faults: { Self → ℕ };

    /// Fills the buffer from its start with the next bytes, and answers how many they are.
    ///
    /// # Errors
    /// `Failed` where the source fails. Then no byte was taken.
    fn take(&mut self, buf: &mut [u8]) -> Result<usize, Failed>
        ensures within { IfOk result (λ n. n ≤ length buf.old) }
        ensures bytes { IfOk result (λ n. Takes (left self.old) (left self.new) (take n buf.new)) }
        ensures end { IfOk result (λ n. n ≡ 0 → 0 < length buf.old → IsAtEnd (left self.old)) }
        ensures err { OnErr result (left self.new ≡ left self.old) }
        ensures cause { HasCause (faults self.old) (faults self.new) result };
}

/// Bytes that are put behind one another, a piece at a call.
pub trait Sink {
    /// The bytes that it holds, or none where the sink doesn't tell them.
    ghost written: { Self → Told };

    /// How often it has failed.
    ghost faults: { Self → ℕ };

    /// Whether a finish answered Ok and no byte was taken since.
    ghost finished: { Self → Bool };

    /// Takes a prefix of the bytes, at least one where there is one, and answers how many.
    ///
    /// # Errors
    /// `Failed` where the sink fails. Then no byte was taken.
    fn put(&mut self, bytes: &[u8]) -> Result<usize, Failed>
        ensures within { IfOk result (λ n. n ≤ length bytes.now) }
        ensures some { IfOk result (λ n. 0 < length bytes.now → 0 < n) }
        ensures written { IfOk result (λ n. Puts (written self.old) (written self.new) (take n bytes.now)) }
        ensures open { IfOk result (λ n. finished self.new ≡ (finished self.old && n == 0)) }
        ensures err { OnErr result ((written self.new ≡ written self.old) × (finished self.new ≡ finished self.old)) }
        ensures cause { HasCause (faults self.old) (faults self.new) result };

    /// Takes no byte, and leaves what was written, whatever it answers.
    ///
    /// # Errors
    /// `Failed` where the sink fails. It is then as finished as it was.
    fn finish(&mut self) -> Result<(), Failed>
        ensures written { written self.new ≡ written self.old }
        ensures finished { OnOk result (finished self.new ≡ true) }
        ensures err { OnErr result (finished self.new ≡ finished self.old) }
        ensures cause { HasCause (faults self.old) (faults self.new) result };
}
