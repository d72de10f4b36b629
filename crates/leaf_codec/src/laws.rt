//! What follows from the definitions of spellings.

ghost use Rattle.std.specs.Prelude.{◌≡◌, ℕ, List};

use crate::blob::Blob;

/// That no bytes spell two values of a type, in any formats, and that a value has one spelling in a format.
pub fn spelling_laws<B: Blob>()
    ensures values { (f g : ℕ) (bytes : List ℕ) (x y : B) → B.spelling f bytes x → B.spelling g bytes y → x ≡ y }
    ensures spellings { (f : ℕ) (a b : List ℕ) (x : B) → B.spelling f a x → B.spelling f b x → a ≡ b }
{
    B::codec_laws();
}
