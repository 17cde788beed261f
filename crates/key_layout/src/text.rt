//! The words of a line, and the numbers that words write.
ghost use Rattle.std.specs.Prelude.{◌≡◌, ◌<◌, ◌≤◌, ◌==◌, not, length};
ghost use Rattle.std.specs.Char.{digit_value};
ghost use Rattle.std.specs.List.{prefix_len};
ghost use Rattle.key_layout.specs.Text.{behind_word, content, number, scan_of, without_comment, without_last, word};

use text_lines::{skip_blanks, word_len};

/// The first word and the text after it; the word is empty if there is none.
#[tactic(auto, unfolding(crate::specs::Text::word, crate::specs::Text::behind_word))]
pub(crate) fn next_word(bytes: &[u8]) -> (&[u8], &[u8])
    ensures word { result.0.now ≡ word bytes.now }
    ensures rest { result.1.now ≡ behind_word bytes.now }
{
    let text = skip_blanks(bytes);
    text.split_at(word_len(text))
}

/// The value of a digit in a base up to 36; 36 for a byte that is not a digit.
fn value_of(b: u8) -> u8
    ensures { result ≡ digit_value b }
{
    match b {
        b'0'..=b'9' => b - b'0',
        b'A'..=b'Z' => b - (b'A' - 10),
        b'a'..=b'z' => b - (b'a' - 10),
        _ => 36,
    }
}

/// The number of at most 16 bits written by one or more digits of a base.
#[tactic(auto, unfolding(crate::specs::Text::number))]
fn number(base: u8, digits: &[u8]) -> Option<u16>
    requires low { 1 < base }
    requires high { base ≤ 36 }
    ensures { result ≡ number base digits.now }
{
    if digits.is_empty() {
        return None;
    }
    let mut n: u32 = 0;
    for b in digits {
        let digit = value_of(*b);
        if digit >= base {
            return None;
        }
        n = n * u32::from(base) + u32::from(digit);
        if n > 65535 {
            return None;
        }
    }
    Some(n as u16)
}

/// The 16-bit number that a word writes in decimal digits, or as `0x` and hexadecimal ones.
#[tactic(auto, unfolding(crate::specs::Text::scan_of))]
pub(crate) fn scan_of(word: &[u8]) -> Option<u16>
    ensures { result ≡ scan_of word.now }
{
    match word {
        [b'0', b'x', digits @ ..] => number(16, digits),
        _ => number(10, word),
    }
}

/// A line without a carriage return at its end.
fn without_return(line: &[u8]) -> &[u8]
    ensures { result.now ≡ without_last 13 line.now }
{
    match line {
        [text @ .., b'\r'] => text,
        _ => line,
    }
}

/// A line without the carriage return before its newline.
pub(crate) fn content(text: &[u8], ended: bool) -> &[u8]
    ensures { result.now ≡ content (text.now, ended) }
{
    if ended { without_return(text) } else { text }
}

/// The number of bytes before the first `#`.
fn comment_at(line: &[u8]) -> usize
    ensures value { result ≡ prefix_len (λ b. not (b == 35)) line.now }
    ensures within { result ≤ length line.now }
{
    let mut count = 0;
    for b in line {
        if *b == b'#' {
            return count;
        }
        count += 1;
    }
    count
}

/// The bytes before the first `#`.
#[tactic(auto, unfolding(crate::specs::Text::without_comment))]
pub(crate) fn without_comment(line: &[u8]) -> &[u8]
    ensures { result.now ≡ without_comment line.now }
{
    line.split_at(comment_at(line)).0
}
