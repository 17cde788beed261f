//! Blanks and words.
ghost use Rattle.std.specs.Prelude.{◌≡◌, ◌≤◌, length};
ghost use Rattle.text_lines.specs.Blanks.{is_blank, skip_blanks, word_len};

/// Whether a byte is a space or a tab.
#[inline(always)]
pub fn is_blank(b: u8) -> bool
    ensures { result ≡ is_blank b }
{
    b == b' ' || b == b'\t'
}

/// The bytes after the leading blanks.
#[inline(always)]
pub fn skip_blanks(bytes: &[u8]) -> &[u8]
    ensures { result.now ≡ skip_blanks bytes.now }
{
    let mut rest = bytes;
    while let [b, after @ ..] = rest {
        if !is_blank(*b) {
            return rest;
        }
        rest = after;
    }
    rest
}

/// The number of bytes before the first blank.
#[inline(always)]
pub fn word_len(bytes: &[u8]) -> usize
    ensures value { result ≡ word_len bytes.now }
    ensures within { result ≤ length bytes.now }
{
    let mut count = 0;
    for b in bytes {
        if is_blank(*b) {
            return count;
        }
        count += 1;
    }
    count
}
