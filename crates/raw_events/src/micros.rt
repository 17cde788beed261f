//! The microseconds of a time as every recorder writes them: six digits and the second bracket.
ghost use Rattle.std.specs.Prelude.{◌≡◌, ◌∷◌, [], ◌<◌, ◌^◌, length, IfSome};
ghost use Rattle.raw_events.specs.Text.{number};
ghost use Rattle.raw_events.specs.Front.{MicrosSay};
ghost use Rattle.raw_events.specs.Recording.{line_len};

use crate::digits::decimal_value;

/// How many bytes the microseconds take with the second bracket.
pub(crate) const MICROS_LEN: usize = 7;

/// The number that three decimal digits write; None says nothing.
#[inline(always)]
fn three(a: u8, b: u8, c: u8) -> Option<u32>
    ensures value { IfSome result (λ n. number 10 (a ∷ b ∷ c ∷ []) ≡ Some n) }
    ensures bound { IfSome result (λ n. n < 10 ^ 3) }
{
    let first = decimal_value(a);
    let second = decimal_value(b);
    let last = decimal_value(c);
    let n = (first * 10 + second) * 10 + last;
    if n < 1_000 { Some(n) } else { None }
}

/// The microseconds, if they are written as usual. None decides nothing.
#[inline(always)]
pub(crate) fn micros(text: &[u8]) -> Option<u64>
    ensures value { IfSome result (λ n. MicrosSay text.now n) }
    ensures unended { IfSome result (λ n. line_len text.now ≡ length text.now) }
    ensures bound { IfSome result (λ n. n < 10 ^ 6) }
{
    if text.len() != MICROS_LEN || text[6] != b']' {
        return None;
    }
    let high = three(text[0], text[1], text[2])?;
    let low = three(text[3], text[4], text[5])?;
    Some(u64::from(high * 1000 + low))
}
