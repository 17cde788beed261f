//! The lines of a text.
ghost use Rattle.std.specs.Prelude.{◌≡◌, ◌<◌, ◌≤◌, ◌∷◌, ◌==◌, not, length};
ghost use Rattle.std.specs.List.{prefix_len};
ghost use Rattle.text_lines.specs.Lines.{lines_of};

use memchr::memchr;

/// The number of bytes before the first newline, or of all bytes if there is none.
#[inline(always)]
pub fn line_len(bytes: &[u8]) -> usize
    ensures value { result ≡ prefix_len (λ b. not (b == 10)) bytes.now }
    ensures within { result ≤ length bytes.now }
{
    match memchr(b'\n', bytes) {
        Some(place) => place,
        None => bytes.len(),
    }
}

/// The first line of a text that is not empty.
#[derive(Clone, Copy)]
pub struct FirstLine<'a> {
    /// The line without its newline.
    pub text: &'a [u8],
    /// Whether a newline ends it.
    pub ended: bool,
    /// The text after the line and its newline.
    pub rest: &'a [u8],
}

/// The first line, and the text after it.
#[inline(always)]
pub fn first_line(bytes: &[u8]) -> FirstLine<'_>
    requires { 0 < length bytes.now }
    ensures lines { lines_of bytes.now ≡ (result.text.now, result.ended) ∷ lines_of result.rest.now }
    ensures shorter { length result.rest.now < length bytes.now }
{
    let (text, rest) = bytes.split_at(line_len(bytes));
    match rest {
        [_, rest @ ..] => FirstLine {
            text,
            ended: true,
            rest,
        },
        [] => FirstLine {
            text,
            ended: false,
            rest,
        },
    }
}
