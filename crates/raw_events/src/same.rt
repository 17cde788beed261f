//! Whether two short texts are the same.
ghost use Rattle.std.specs.Prelude.{◌≡◌, ◌+◌, ◌≤◌, length, take, drop, IsTrue, IfSome};
ghost use Rattle.std.specs.Int.{to_le_bytes, w64};

/// The first eight bytes as one word.
#[inline(always)]
fn word(text: &[u8]) -> u64
    requires { 8 ≤ length text.now }
    ensures { to_le_bytes w64 result ≡ take 8 text.now }
{
    u64::from_le_bytes([
        text[0], text[1], text[2], text[3], text[4], text[5], text[6], text[7],
    ])
}

/// Whether the words of eight bytes at a place are the same.
#[inline(always)]
fn same_word(a: &[u8], b: &[u8], at: usize) -> bool
    requires a { at + 8 ≤ length a.now }
    requires b { at + 8 ≤ length b.now }
    ensures { IsTrue result → take 8 (drop at a.now) ≡ take 8 (drop at b.now) }
{
    word(a.split_at(at).1) == word(b.split_at(at).1)
}

/// How many bytes at the front are the same: 32, or none if the texts are shorter. None decides nothing.
#[inline(always)]
fn same_in_front(a: &[u8], b: &[u8]) -> Option<usize>
    requires { length a.now ≡ length b.now }
    ensures { IfSome result (λ n. (take n a.now ≡ take n b.now) × (n ≤ length a.now)) }
{
    if a.len() < 32 {
        return Some(0);
    }
    if !same_word(a, b, 0) {
        return None;
    }
    if !same_word(a, b, 8) {
        return None;
    }
    if !same_word(a, b, 16) {
        return None;
    }
    if !same_word(a, b, 24) {
        return None;
    }
    Some(32)
}

/// Whether two texts are the same, by words of eight bytes; false says nothing.
#[inline(always)]
pub(crate) fn is_same(a: &[u8], b: &[u8]) -> bool
    ensures { IsTrue result → a.now ≡ b.now }
{
    let len = a.len();
    if len != b.len() || len < 8 {
        return false;
    }
    let Some(start) = same_in_front(a, b) else {
        return false;
    };
    let mut at = start;
    'words: while len - at > 8 {
        if !same_word(a, b, at) {
            return false;
        }
        at += 8;
    }
    same_word(a, b, len - 8)
}
