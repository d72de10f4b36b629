//! What follows from the definitions of lines, words and numbers.

ghost use Rattle.std.specs.Prelude.{◌≡◌, ◌≢◌, ℕ, ◌+◌, ◌^◌, ◌<◌, ◌≤◌, Bool, map, List, [], ◌∷◌, ◌++◌, length, true, false, Some, ℤ, nat_abs, All};
ghost use Rattle.std.specs.Fmt.{decimal, signed_decimal};
ghost use Rattle.oemm_lines.specs.Words.{is_blank, words_of};
ghost use Rattle.oemm_lines.specs.Lines.{without_return};
ghost use Rattle.oemm_lines.specs.Numbers.{unsigned_of, integer_of};
ghost use Rattle.oemm_lines.specs.Stream.{uncommented, words_in, word_in, IsWordIn, line_of, line_then, fault_alone, nothing_more, told_lines};

use super::parts::LineFault;
use oemm_limits::MOST_LINE_BYTES;

/// How a line falls into words.
pub fn word_laws()
    ensures first { (word rest : List ℕ) (c : ℕ) → word ≢ [] → All (λ b. is_blank b ≡ false) word → is_blank c ≡ true →
        words_of (word ++ c ∷ rest) ≡ word ∷ words_of rest }
    ensures last { (word : List ℕ) → word ≢ [] → All (λ b. is_blank b ≡ false) word → words_of word ≡ word ∷ [] }
    ensures blank { (c : ℕ) (rest : List ℕ) → is_blank c ≡ true → words_of (c ∷ rest) ≡ words_of rest }
    ensures none { words_of [] ≡ [] }
{}

/// The decimal text of a number writes that number.
pub fn number_laws()
    ensures whole { (n : ℕ) → n < 10 ^ 64 → unsigned_of (decimal n) ≡ Some n }
    ensures integer { (z : ℤ) → nat_abs z < 10 ^ 64 → integer_of (signed_decimal z) ≡ Some z }
{}

/// The bytes at the places of a line's words are its words, and each lies in the line.
pub fn word_place_laws()
    ensures texts { (comments : Bool) (bytes : List ℕ) →
        map (word_in bytes) (words_in comments bytes) ≡ words_of (uncommented comments bytes) }
    ensures within { (comments : Bool) (bytes : List ℕ) → All (IsWordIn bytes) (words_in comments bytes) }
{}

/// What a source says, by the bytes in front of its first line feed.
pub fn told_line_laws()
    ensures none { (comments : Bool) (budget at number : ℕ) → told_lines comments budget at number [] ≡ nothing_more }
    ensures ended { (comments : Bool) (budget at number : ℕ) (body rest : List ℕ) → All (λ c. c ≢ 10) body →
        length body ≤ MOST_LINE_BYTES → at + (length body + 1) ≤ budget →
        told_lines comments budget at number (body ++ 10 ∷ rest)
        ≡ line_then (line_of comments at number (without_return body))
        (told_lines comments budget (at + (length body + 1)) (number + 1) rest) }
    ensures last { (comments : Bool) (budget at number : ℕ) (body : List ℕ) → body ≢ [] → All (λ c. c ≢ 10) body →
        length body ≤ MOST_LINE_BYTES → at + length body ≤ budget →
        told_lines comments budget at number body ≡ line_then (line_of comments at number body) nothing_more }
    ensures too_long { (comments : Bool) (budget at number : ℕ) (front rest : List ℕ) → All (λ c. c ≢ 10) front →
        MOST_LINE_BYTES < length front → at + MOST_LINE_BYTES < budget →
        told_lines comments budget at number (front ++ rest) ≡ fault_alone (LineFault.TooLong at) }
    ensures past { (comments : Bool) (budget at number : ℕ) (front rest : List ℕ) → All (λ c. c ≢ 10) front →
        at ≤ budget → budget ≤ at + MOST_LINE_BYTES → budget < at + length front →
        told_lines comments budget at number (front ++ rest) ≡ fault_alone (LineFault.Bytes budget) }
    ensures end_past { (comments : Bool) (budget at number : ℕ) (body rest : List ℕ) → All (λ c. c ≢ 10) body →
        length body ≤ MOST_LINE_BYTES → budget < at + (length body + 1) →
        told_lines comments budget at number (body ++ 10 ∷ rest) ≡ fault_alone (LineFault.Bytes budget) }
{}
