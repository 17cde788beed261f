//! Numbers that begin with the digits of the number before.
//!
//! The messages of a channel are counted and their times rise, so all digits but the last few are usually those of the
//! line before. They are kept, and one copy writes them.
ghost use Rattle.std.specs.Prelude.{◌≡◌, ◌+◌, ◌-◌, ◌<◌, ◌≤◌, ◌++◌, length, drop, take, decimal};

use crate::writing::prepend::{Room, prepend_number, put_triple};
use std::marker::Model;

/// At most 16 digits.
#[derive(Drop)]
struct Digits {
    text: [u8; 16],
    len: usize,
}

impl Model for Digits {
    ghost use Rattle.std.specs.Prelude.{List, ℕ, ◌≡◌, ◌≤◌, ◌-◌, length, drop};

    ghost Value = { List ℕ };

    ghost view = { λ d. drop (16 - d.len) d.text };

    ghost invariant = { λ d. (length d.text ≡ 16) × (d.len ≤ 16) };
}

impl Digits {
    /// The digit 1.
    fn one() -> Digits
        ensures { result ≡ decimal 1 }
    {
        Digits {
            text: [b'1'; 16],
            len: 1,
        }
    }

    /// Writes the digits in front of `end`, and returns where they begin.
    #[inline(always)]
    fn prepend(&self, line: &mut Room, end: usize) -> usize
        requires { (16 ≤ end) × (end ≤ 1280) }
        ensures within { result + length self.now ≡ end }
        ensures written { drop result line.new ≡ self.now ++ drop end line.old }
    {
        line[end - 16..end].copy_from_slice(&self.text);
        end - self.len
    }

    /// Keeps the digits between two places of a line.
    fn keep(&mut self, line: &Room, at: usize, end: usize)
        requires { (at ≤ end) × (end ≤ at + 16) × (16 ≤ end) × (end ≤ 1280) }
        ensures { self.new ≡ take (end - at) (drop at line.now) }
    {
        self.text.copy_from_slice(&line[end - 16..end]);
        self.len = end - at;
    }
}

/// Writes the numbers of messages, each usually one above the one before.
#[derive(Drop)]
pub(crate) struct Counted {
    digits: Digits,
    // The number whose digits, except for the last three, are kept, with zeros for these.
    base: u64,
}

impl Model for Counted {
    ghost use Rattle.std.specs.Prelude.{◌≡◌, ◌≤◌, ◌/◌, ◌%◌, decimal};

    ghost Value = { Unit {0} };

    ghost view = { λ _. tt };

    ghost invariant = { λ c. (1000 ≤ c.base) × (c.base % 1000 ≡ 0) × (c.digits ≡ decimal (c.base / 1000)) };
}

impl Counted {
    pub(crate) fn new() -> Counted {
        Counted {
            digits: Digits::one(),
            base: 1000,
        }
    }

    /// Writes the decimal digits of a number in front of `end`, and returns where they begin.
    #[inline(always)]
    pub(crate) fn prepend(&mut self, line: &mut Room, end: usize, number: u64) -> usize
        requires { (23 ≤ end) × (end ≤ 1280) }
        ensures within { (result ≤ end) × (end ≤ result + 20) }
        ensures written { drop result line.new ≡ decimal number ++ drop end line.old }
    {
        if self.base <= number && number - self.base < 1000 {
            put_triple(line, end, number - self.base);
            return self.digits.prepend(line, end - 3);
        }
        self.prepend_anew(line, end, number)
    }

    #[inline(never)]
    fn prepend_anew(&mut self, line: &mut Room, end: usize, number: u64) -> usize
        requires { (23 ≤ end) × (end ≤ 1280) }
        ensures within { (result ≤ end) × (end ≤ result + 20) }
        ensures written { drop result line.new ≡ decimal number ++ drop end line.old }
    {
        let at = prepend_number(line, end, number);
        if number >= 1000 && end - 3 - at <= 16 {
            self.digits.keep(line, at, end - 3);
            self.base = number - number % 1000;
        }
        at
    }
}

/// Writes times, each usually in the same second as the one before.
#[derive(Drop)]
pub(crate) struct Timed {
    digits: Digits,
    // The time whose digits, except for the last six, are kept, with zeros for these.
    base: u64,
}

impl Model for Timed {
    ghost use Rattle.std.specs.Prelude.{◌≡◌, ◌≤◌, ◌/◌, ◌%◌, decimal};

    ghost Value = { Unit {0} };

    ghost view = { λ _. tt };

    ghost invariant = { λ t. (1000000 ≤ t.base) × (t.base % 1000000 ≡ 0) × (t.digits ≡ decimal (t.base / 1000000)) };
}

impl Timed {
    pub(crate) fn new() -> Timed {
        Timed {
            digits: Digits::one(),
            base: 1_000_000,
        }
    }

    /// Writes the decimal digits of a time in front of `end`, and returns where they begin.
    #[inline(always)]
    pub(crate) fn prepend(&mut self, line: &mut Room, end: usize, moment: u64) -> usize
        requires { (23 ≤ end) × (end ≤ 1280) }
        ensures within { (result ≤ end) × (end ≤ result + 20) }
        ensures written { drop result line.new ≡ decimal moment ++ drop end line.old }
    {
        if self.base <= moment && moment - self.base < 1_000_000 {
            let micros = moment - self.base;
            put_triple(line, end, micros % 1000);
            put_triple(line, end - 3, micros / 1000);
            return self.digits.prepend(line, end - 6);
        }
        self.prepend_anew(line, end, moment)
    }

    #[inline(never)]
    fn prepend_anew(&mut self, line: &mut Room, end: usize, moment: u64) -> usize
        requires { (23 ≤ end) × (end ≤ 1280) }
        ensures within { (result ≤ end) × (end ≤ result + 20) }
        ensures written { drop result line.new ≡ decimal moment ++ drop end line.old }
    {
        let at = prepend_number(line, end, moment);
        if moment >= 1_000_000 {
            self.digits.keep(line, at, end - 6);
            self.base = moment - moment % 1_000_000;
        }
        at
    }
}
