//! What ends a line.

ghost use Rattle.std.specs.Prelude.{◌≡◌, ◌≤◌, length};
ghost use Rattle.oemm_lines.specs.Lines.{without_return};

/// The text in front of a line feed, without the carriage return right before it.
pub fn without_carriage_return(text: &[u8]) -> &[u8]
    ensures text { result.now ≡ without_return text.now }
    ensures shorter { length result.now ≤ length text.now }
{
    let Some((last, front)) = text.split_last() else {
        return text;
    };
    if *last == b'\r' { front } else { text }
}
