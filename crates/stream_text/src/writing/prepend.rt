//! Words and numbers in front of what stands at the end of a line.
//!
//! A line is made from its end to its front. So the digits of a number are written in the order in which division
//! yields them, and nobody has to know beforehand how many there are.
ghost use Rattle.std.specs.Prelude.{◌≡◌, ◌+◌, ◌-◌, ◌<◌, ◌≤◌, ◌++◌, length, drop, decimal};
ghost use Rattle.std.specs.Fmt.{signed_decimal};
ghost use Rattle.stream_text.specs.Spelling.{labeled};
ghost use Rattle.stream_text.specs.Triple.{triple_digits};

use crate::writing::digits::triple_of;

/// The bytes of the buffer in which a line is made: more than any line has.
pub(crate) const ROOM: usize = 1280;

/// The buffer in which a line is made.
pub(crate) type Room = [u8; ROOM];

/// Writes the three digits of a number in front of `end`, and returns how many it has without leading zeros. The byte
/// in front of the digits is lost.
#[inline(always)]
pub(crate) fn put_triple(line: &mut Room, end: usize, number: u64) -> usize
    requires { (number < 1000) × (4 ≤ end) × (end ≤ 1280) }
    ensures count { result ≡ length (decimal number) }
    ensures three { drop (end - 3) line.new ≡ triple_digits number ++ drop end line.old }
    ensures exact { drop (end - result) line.new ≡ decimal number ++ drop end line.old }
{
    let at = end - 4;
    let triple = triple_of(number);
    line[at] = (triple % 256) as u8;
    line[at + 1] = (triple / 256 % 256) as u8;
    line[at + 2] = (triple / 65536 % 256) as u8;
    line[at + 3] = (triple / 16777216) as u8;
    (triple % 256) as usize
}

/// Writes the decimal digits of a number in front of `end`, and returns where they begin.
#[inline(always)]
pub(crate) fn prepend_number(line: &mut Room, end: usize, number: u64) -> usize
    requires { (23 ≤ end) × (end ≤ 1280) }
    ensures within { (result ≤ end) × (end ≤ result + 20) }
    ensures start { result + length (decimal number) ≡ end }
    ensures written { drop result line.new ≡ decimal number ++ drop end line.old }
{
    let mut at = end;
    let mut left = number;
    while left >= 1000 {
        put_triple(line, at, left % 1000);
        at -= 3;
        left /= 1000;
    }
    at - put_triple(line, at, left)
}

/// Writes a word in front of `end`, and returns where it begins.
#[inline(always)]
pub(crate) fn prepend_word(line: &mut Room, end: usize, word: &str) -> usize
    requires { (length word.now ≤ end) × (end ≤ 1280) }
    ensures within { result + length word.now ≡ end }
    ensures written { drop result line.new ≡ word.now ++ drop end line.old }
{
    let bytes = word.as_bytes();
    let at = end - bytes.len();
    let mut left = bytes.len();
    while left > 0 {
        left -= 1;
        line[at + left] = bytes[left];
    }
    at
}

/// Writes a number that may be negative in front of `end`, and returns where it begins.
#[inline(always)]
pub(crate) fn prepend_signed(line: &mut Room, end: usize, number: i32) -> usize
    requires { (23 ≤ end) × (end ≤ 1280) }
    ensures within { (result ≤ end) × (end ≤ result + 21) }
    ensures written { drop result line.new ≡ signed_decimal number ++ drop end line.old }
{
    let at = prepend_number(line, end, u64::from(number.unsigned_abs()));
    if number >= 0 {
        return at;
    }
    line[at - 1] = b'-';
    at - 1
}

/// Writes some words and a number in front of `end`, and returns where the words begin.
#[inline(always)]
#[tactic(auto, unfolding(crate::specs::Spelling::labeled))]
pub(crate) fn prepend_labeled(line: &mut Room, end: usize, words: &str, number: u64) -> usize
    requires { (length words.now + 23 ≤ end) × (end ≤ 1280) }
    ensures within { (result ≤ end) × (end ≤ result + length words.now + 20) }
    ensures written { drop result line.new ≡ labeled words.now number ++ drop end line.old }
{
    let at = prepend_number(line, end, number);
    prepend_word(line, at, words)
}
