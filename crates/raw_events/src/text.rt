//! Blanks, words and numbers in the bytes of a line.
ghost use Rattle.std.specs.Prelude.{◌≡◌, ◌<◌, ◌≤◌, ◌^◌, length, option_map, IfSome, Some, ◌==◌};
ghost use Rattle.std.specs.Char.{is_digit};
ghost use Rattle.std.specs.List.{prefix_len};
ghost use Rattle.raw_events.specs.Text.{after_blanks, after_byte, number, number_at};
ghost use Rattle.text_lines.specs.Blanks.{is_blank, skip_blanks};

use crate::digits::value_of;
use text_lines::{is_blank, skip_blanks};

/// The bytes after the blanks at the front, of which there is at least one.
#[inline(always)]
pub(crate) fn past_blanks(bytes: &[u8]) -> Option<&[u8]>
    ensures { option_map (λ rest. rest.now) result ≡ after_blanks bytes.now }
{
    match bytes {
        [b, rest @ ..] => {
            if is_blank(*b) {
                Some(skip_blanks(rest))
            } else {
                None
            }
        }
        [] => None,
    }
}

/// The bytes behind this byte.
#[inline(always)]
pub(crate) fn past_byte(byte: u8, bytes: &[u8]) -> Option<&[u8]>
    ensures { option_map (λ rest. rest.now) result ≡ after_byte byte bytes.now }
{
    match bytes {
        [b, rest @ ..] => { if *b == byte { Some(rest) } else { None } }
        [] => None,
    }
}

/// The number that decimal digits write.
#[inline(always)]
fn decimal(digits: &[u8]) -> Option<u64>
    requires { length digits.now ≤ 12 }
    ensures value { result ≡ number 10 digits.now }
    ensures bound { IfSome result (λ n. n < 10 ^ length digits.now) }
{
    let mut n = 0;
    for b in digits {
        let digit = value_of(*b);
        if digit >= 10 {
            return None;
        }
        n = n * 10 + digit as u64;
    }
    Some(n)
}

/// The number that hexadecimal digits write.
#[inline(always)]
fn hex(digits: &[u8]) -> Option<u32>
    requires { length digits.now ≤ 8 }
    ensures value { result ≡ number 16 digits.now }
    ensures bound { IfSome result (λ n. n < 16 ^ length digits.now) }
{
    let mut n = 0;
    for b in digits {
        let digit = value_of(*b);
        if digit >= 16 {
            return None;
        }
        n = n * 16 + digit as u32;
    }
    Some(n)
}

/// Exactly `len` decimal digits, and what follows them.
#[inline(always)]
#[tactic(auto, unfolding(crate::specs::Text::number_at))]
pub(crate) fn decimal_at(len: usize, bytes: &[u8]) -> Option<(u64, &[u8])>
    requires { len ≤ 12 }
    ensures value { option_map (λ read. (read.0, read.1.now)) result ≡ number_at 10 len bytes.now }
    ensures bound { IfSome result (λ read. read.0 < 10 ^ len) }
{
    if bytes.len() < len {
        return None;
    }
    let (digits, rest) = bytes.split_at(len);
    let n = decimal(digits)?;
    Some((n, rest))
}

/// Exactly `len` hexadecimal digits, and what follows them.
#[inline(always)]
#[tactic(auto, unfolding(crate::specs::Text::number_at))]
pub(crate) fn hex_at(len: usize, bytes: &[u8]) -> Option<(u32, &[u8])>
    requires { len ≤ 8 }
    ensures value { option_map (λ read. (read.0, read.1.now)) result ≡ number_at 16 len bytes.now }
    ensures bound { IfSome result (λ read. read.0 < 16 ^ len) }
{
    if bytes.len() < len {
        return None;
    }
    let (digits, rest) = bytes.split_at(len);
    let n = hex(digits)?;
    Some((n, rest))
}

/// How many decimal digits stand in front.
#[inline(always)]
pub(crate) fn digits_in_front(bytes: &[u8]) -> usize
    ensures { result ≡ prefix_len (λ b. is_digit b 10) bytes.now }
{
    let mut count = 0;
    for b in bytes {
        if value_of(*b) >= 10 {
            return count;
        }
        count += 1;
    }
    count
}
