//! The places of the words of a line.

ghost use Rattle.std.specs.Prelude.{◌≡◌, ◌^◌, ◌<◌, ◌≤◌, true, length, IfOk};
ghost use Rattle.oemm_lines.specs.Stream.{uncommented, words_from, words_in};

use super::parts::{Word, Words};
use super::words::{blanks_in_front, word_length};
use memchr::memchr;
use std::alloc::{AllocError, Global};

/// The bytes before the comment.
fn before_comment(text: &[u8]) -> &[u8]
    ensures text { result.now ≡ uncommented true text.now }
    ensures shorter { length result.now ≤ length text.now }
{
    match memchr(b'#', text) {
        Some(at) => &text[..at],
        None => text,
    }
}

/// The words of bytes, by their places.
fn words_of_bytes(alloc: Global, text: &[u8]) -> Result<Words, AllocError>
    requires { length text.now < 2 ^ 32 }
    ensures { IfOk result (λ words. words ≡ words_from 0 text.now) }
{
    let mut words = Vec::new(alloc);
    let mut at = blanks_in_front(text);
    while at < text.len() {
        let end = at + word_length(&text[at..]);
        words.push(Word {
            from: at as u32,
            to: end as u32,
        })?;
        at = end + blanks_in_front(&text[end..]);
    }
    Ok(Words::from_vec(words))
}

/// The words of a line's bytes.
///
/// # Errors
/// Want of memory.
pub fn words_of_line(alloc: Global, text: &[u8], comments: bool) -> Result<Words, AllocError>
    requires { length text.now < 2 ^ 32 }
    ensures { IfOk result (λ words. words ≡ words_in comments text.now) }
{
    if comments {
        words_of_bytes(alloc, before_comment(text))
    } else {
        words_of_bytes(alloc, text)
    }
}
