//! What a store keeps as bytes.

ghost use Rattle.std.specs.Prelude.{◌≡◌, ℕ, List, Result, IfOk};
ghost use Rattle.byte_grammar.specs.Calls.{Gives, Decodes, GivesIt, StopsFirst};
ghost use Rattle.byte_grammar.specs.Reader.{Reader};
ghost use Rattle.byte_grammar.specs.Codec.{IsCodec};
ghost use Rattle.leaf_codec.specs.declared.formats.TheConstants.{NEWEST};

use byte_grammar::{CodecFault, Stop, whole_of};
use oemm_lists::Bytes;
use std::alloc::{AllocError, Global};

/// A value that has one spelling in a format. Both ways take time in proportion to the bytes, but for a search among
/// the names of a sheet for each of its faces.
pub trait Blob: Sized + Drop {
    /// How the value at the front of bytes is read.
    ghost reading: { Reader Self };

    /// The rules that a value keeps which has a spelling.
    ghost rules: { Self → Type 0 };

    /// Holds of a format, and of the bytes that are the spelling of a value in it.
    ghost spelling: { ℕ → List ℕ → Self → Type 0 };

    /// The spelling of the value in the newest format.
    ///
    /// # Errors
    /// Want of memory.
    fn encode(&self, alloc: Global) -> Result<Bytes, AllocError>
        requires { rules self.now }
        ensures { IfOk result (λ bytes. spelling NEWEST bytes self.now) };

    /// The value at the front of bytes, in whichever format, and the bytes behind it. Room is taken for no more than so
    /// many bytes can hold.
    fn front(alloc: Global, bytes: &[u8]) -> Result<(Self, &[u8]), Stop>
        ensures { Gives (λ x. (x.0, x.1.now)) result (reading bytes.now) };

    /// That what is read is spelled so and keeps the rules, what is spelled so is read, each value has one spelling in a
    /// format, and reading stops at no place before the one where it stopped.
    fn codec_laws()
        ensures { IsCodec reading rules spelling };

    /// The value that the bytes spell, in whichever format. Room is taken for no more than so many bytes can hold.
    ///
    /// # Errors
    /// The place from which on the bytes are no spelling, or want of memory.
    final fn decode(alloc: Global, bytes: &[u8]) -> Result<Self, CodecFault>
        // What is decoded is spelled so.
        ensures found { IfOk result (λ x. (format : ℕ) × spelling format bytes.now x) }
        // What is spelled so is decoded, unless memory runs out.
        ensures only { (format : ℕ) (x : Self) → spelling format bytes.now x → GivesIt x result }
        // What is decoded can be encoded again.
        ensures kept { IfOk result rules }
        // No unit before the place of a fault is at fault, whatever stands behind it.
        ensures first { StopsFirst reading bytes.now result }
        // Which value, and which place.
        ensures exact { Decodes reading bytes.now result }
    {
        Self::codec_laws();
        whole_of(bytes, Self::front(alloc, bytes))
    }
}
