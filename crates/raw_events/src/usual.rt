//! Type, code and value as every recorder writes them: 18 bytes, with one space between them.
ghost use Rattle.std.specs.Prelude.{◌≡◌, ◌∷◌, [], true, false, ◌<◌, ◌^◌, length, IfSome};
ghost use Rattle.raw_events.specs.Text.{number};
ghost use Rattle.raw_events.specs.Line.{fields_of};
ghost use Rattle.raw_events.specs.Front.{plain};
ghost use Rattle.raw_events.specs.Recording.{line_len};
ghost use Rattle.text_lines.specs.Blanks.{ends_in};

use crate::digits::hex_place;
use crate::line::{Fields, fields_from};

/// How many bytes type, code and value take with one space between them.
pub(crate) const USUAL_LEN: usize = 18;

/// The number that four hexadecimal digits write; None says nothing.
#[inline(always)]
fn four(a: u8, b: u8, c: u8, d: u8) -> Option<u32>
    ensures value { IfSome result (λ n. number 16 (a ∷ b ∷ c ∷ d ∷ []) ≡ Some n) }
    ensures bound { IfSome result (λ n. n < 16 ^ 4) }
{
    let n = hex_place(3, a) + hex_place(2, b) + hex_place(1, c) + hex_place(0, d);
    if n < 65_536 { Some(n) } else { None }
}

/// Four zeros as one word.
const ZEROS: u32 = 0x3030_3030;

/// The number that four hexadecimal digits write, which are mostly zeros; None says nothing.
#[inline(always)]
fn mostly_zeros(a: u8, b: u8, c: u8, d: u8) -> Option<u32>
    ensures value { IfSome result (λ n. number 16 (a ∷ b ∷ c ∷ d ∷ []) ≡ Some n) }
    ensures bound { IfSome result (λ n. n < 16 ^ 4) }
{
    if u32::from_le_bytes([a, b, c, d]) == ZEROS {
        return Some(0);
    }
    four(a, b, c, d)
}

/// Type, code and value, if they are written as usual. None decides nothing.
#[inline(always)]
pub(crate) fn usual_fields(text: &[u8]) -> Option<Fields>
    ensures fields { IfSome result (λ f. fields_of text.now ≡ Some f) }
    ensures plain { IfSome result (λ f. plain text.now ≡ true) }
    ensures unended { IfSome result (λ f. line_len text.now ≡ length text.now) }
    ensures digit { IfSome result (λ f. (0 < length text.now) × (ends_in 13 text.now ≡ false)) }
{
    if text.len() != USUAL_LEN || text[4] != b' ' || text[9] != b' ' {
        return None;
    }
    let kind = four(text[0], text[1], text[2], text[3])?;
    let code = four(text[5], text[6], text[7], text[8])?;
    let high = mostly_zeros(text[10], text[11], text[12], text[13])?;
    let low = four(text[14], text[15], text[16], text[17])?;
    Some(fields_from(kind, code, high * 65536 + low))
}
