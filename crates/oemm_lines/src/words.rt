//! Blanks, and what stands between them.

ghost use Rattle.std.specs.Prelude.{◌≡◌, ℕ, ◌<◌, ◌≤◌, true, false, length, slice_index};
ghost use Rattle.oemm_lines.specs.Words.{is_blank};

/// Whether the byte is a space or a tab.
fn is_blank_byte(byte: u8) -> bool
    ensures { result ≡ is_blank byte }
{
    byte == b' ' || byte == b'\t'
}

/// How many blanks stand at the front.
pub fn blanks_in_front(text: &[u8]) -> usize
    ensures within { result ≤ length text.now }
    ensures before { (k : ℕ) → k < result → is_blank (slice_index text.now k) ≡ true }
    ensures found { result < length text.now → is_blank (slice_index text.now result) ≡ false }
{
    for (i, c) in text.iter().enumerate() {
        if !is_blank_byte(*c) {
            return i;
        }
    }
    text.len()
}

/// How many bytes stand before the first blank.
pub fn word_length(text: &[u8]) -> usize
    ensures within { result ≤ length text.now }
    ensures before { (k : ℕ) → k < result → is_blank (slice_index text.now k) ≡ false }
    ensures found { result < length text.now → is_blank (slice_index text.now result) ≡ true }
{
    for (i, c) in text.iter().enumerate() {
        if is_blank_byte(*c) {
            return i;
        }
    }
    text.len()
}
