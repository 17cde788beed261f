//! Words and numbers at the front of a text.
ghost use Rattle.std.specs.Prelude.{◌≡◌, ◌≤◌, ◌<◌, option_map, IfSome};
ghost use Rattle.stream_text.specs.MessageLine.{device_at, labeled_at};
ghost use Rattle.stream_text.specs.Number.{after, integer_at, number_at, at_most, digits_from, negative_at, positive_at};

use input_types::DeviceId;

/// The bytes behind a word.
#[inline(always)]
pub(crate) fn past<'a>(word: &str, bytes: &'a [u8]) -> Option<&'a [u8]>
    ensures { option_map (λ rest. rest.now) result ≡ after word.now bytes.now }
{
    let mut rest = bytes;
    for w in word.as_bytes() {
        match rest {
            [b, behind @ ..] => {
                if *b != *w {
                    return None;
                }
                rest = behind;
            }
            [] => return None,
        }
    }
    Some(rest)
}

/// A number whose first digits are those of `first`, with all following digits, at most `max`.
#[inline(always)]
fn digits(first: u64, max: u64, bytes: &[u8]) -> Option<(u64, &[u8])>
    ensures { option_map (λ read. (read.0, read.1.now)) result ≡ at_most max (digits_from first bytes.now) }
{
    let mut n = first;
    let mut rest = bytes;
    while let [b, behind @ ..] = rest {
        if !b.is_ascii_digit() {
            break;
        }
        if n > u64::MAX / 10 {
            return None;
        }
        n = (n * 10).checked_add(u64::from(*b - b'0'))?;
        rest = behind;
    }
    if n <= max { Some((n, rest)) } else { None }
}

/// A decimal number without leading zeros and at most `max`, and the bytes behind it.
#[inline(always)]
#[tactic(auto, unfolding(crate::specs::Number::number_at))]
pub(crate) fn number(max: u64, bytes: &[u8]) -> Option<(u64, &[u8])>
    ensures value { option_map (λ read. (read.0, read.1.now)) result ≡ number_at max bytes.now }
    ensures range { IfSome result (λ read. read.0 ≤ max) }
{
    match bytes {
        [b'0', rest @ ..] => Some((0, rest)),
        [b @ b'1'..=b'9', rest @ ..] => digits(u64::from(*b - b'0'), max, rest),
        _ => None,
    }
}

/// The negative of a number that is not 0 and at most 2^31.
#[inline(always)]
#[tactic(auto, unfolding(crate::specs::Number::negative_at))]
fn negated(digits: &[u8]) -> Option<(i32, &[u8])>
    ensures { option_map (λ read. (read.0, read.1.now)) result ≡ negative_at digits.now }
{
    let (n, rest) = number(2_147_483_648, digits)?;
    if n == 0 {
        return None;
    }
    Some((-1 - (n - 1) as i32, rest))
}

/// A number below 2^31.
#[inline(always)]
#[tactic(auto, unfolding(crate::specs::Number::positive_at))]
fn unsigned(bytes: &[u8]) -> Option<(i32, &[u8])>
    ensures { option_map (λ read. (read.0, read.1.now)) result ≡ positive_at bytes.now }
{
    let (n, rest) = number(2_147_483_647, bytes)?;
    Some((n as i32, rest))
}

/// A decimal number of 32 bits, negative where `-` stands in front, and the bytes behind it.
#[inline(always)]
#[tactic(auto, unfolding(crate::specs::Number::integer_at))]
pub(crate) fn integer(bytes: &[u8]) -> Option<(i32, &[u8])>
    ensures { option_map (λ read. (read.0, read.1.now)) result ≡ integer_at bytes.now }
{
    match bytes {
        [b, digits @ ..] => {
            if *b == b'-' {
                negated(digits)
            } else {
                unsigned(bytes)
            }
        }
        [] => None,
    }
}

/// A number of at most `max` behind some words.
#[inline(always)]
#[tactic(auto, unfolding(crate::specs::MessageLine::labeled_at))]
pub(crate) fn labeled<'a>(words: &str, max: u64, bytes: &'a [u8]) -> Option<(u64, &'a [u8])>
    ensures value { option_map (λ read. (read.0, read.1.now)) result ≡ labeled_at words.now max bytes.now }
    ensures range { IfSome result (λ read. read.0 ≤ max) }
{
    let rest = past(words, bytes)?;
    number(max, rest)
}

/// The number of a device.
#[inline(always)]
#[tactic(auto, unfolding(crate::specs::MessageLine::device_at))]
pub(crate) fn device(bytes: &[u8]) -> Option<(DeviceId, &[u8])>
    ensures { option_map (λ read. (read.0, read.1.now)) result ≡ device_at bytes.now }
{
    let (n, rest) = number(8, bytes)?;
    let device = DeviceId::new(n as u8)?;
    Some((device, rest))
}
