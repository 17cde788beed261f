ghost use Rattle.std.specs.Prelude.{◌≡◌, ℕ, ◌<◌, ◌==◌, ◌||◌, ◌&&◌, not, true, length, slice_get, Some, MatchOption};
ghost use Rattle.bits32.specs.Set.{is_in, cleared, marked, members, members_below, IsFull, IsLeastUnmarked};

use std::marker::Model;

/// A set of numbers below 32.
///
/// Contracts see it as the number `bits`: bit n is 1 exactly where n is in the set.
#[derive(Clone, Copy, Debug, PartialEq, Eq)]
pub struct Bits32 {
    bits: u32,
}

impl Model for Bits32 {
    ghost use Rattle.std.specs.Prelude.{ℕ, ◌<◌, ◌^◌};

    ghost Value = { ℕ };

    ghost view = { λ set. set.bits };

    ghost invariant = { λ set. set.bits < 2 ^ 32 };

    ghost inverse = { λ bits. record { bits = bits } };
}

impl Bits32 {
    /// The set with no number.
    pub fn empty() -> Bits32
        ensures { result ≡ 0 }
    {
        Bits32 { bits: 0 }
    }

    /// Puts `n` into the set.
    pub fn mark(&mut self, n: u8)
        requires { n < 32 }
        ensures after { self.new ≡ marked n self.old }
        ensures has { (k : ℕ) → is_in k self.new ≡ (k == n || is_in k self.old) }
    {
        self.bits |= 1 << n;
    }

    /// Takes `n` out of the set.
    pub fn clear(&mut self, n: u8)
        requires { n < 32 }
        ensures after { self.new ≡ cleared n self.old }
        ensures has { (k : ℕ) → is_in k self.new ≡ (not (k == n) && is_in k self.old) }
    {
        self.bits &= !(1 << n);
    }

    /// Whether `n` is in the set.
    pub fn has(self, n: u8) -> bool
        requires { n < 32 }
        ensures { result ≡ is_in n self }
    {
        (self.bits >> n) & 1 == 1
    }

    /// How many numbers are in the set.
    pub fn count(self) -> u32
        ensures { result ≡ length (members self) }
    {
        self.bits.count_ones()
    }

    /// The least number below 32 that is not in the set, or None exactly where all 32 are in it.
    pub fn first_unmarked(self) -> Option<u8>
        ensures { MatchOption result (IsFull self) (λ n. IsLeastUnmarked self n) }
    {
        if self.bits == u32::MAX {
            return None;
        }
        Some(self.bits.trailing_ones() as u8)
    }

    /// How many numbers below `n` are in the set: the place of `n` in the list of its numbers in rising order.
    pub fn index_of(self, n: u8) -> u32
        requires { is_in n self ≡ true }
        ensures smaller { result ≡ length (members_below n self) }
        ensures place { slice_get (members self) result ≡ Some n }
    {
        let bits = self.bits;
        (bits & ((1 << n) - 1)).count_ones()
    }

    /// The number at the place `k` of the list of the set's numbers in rising order, counted from 0, or None exactly
    /// where `k` is not below `count`.
    pub fn nth(self, k: u32) -> Option<u8>
        ensures { result ≡ slice_get (members self) k }
    {
        let mut left = k;
        for n in 0..32 {
            if self.has(n) {
                if left == 0 {
                    return Some(n);
                }
                left -= 1;
            }
        }
        None
    }

    /// The set as a number whose bit n is 1 exactly where n is in the set.
    pub fn bits(self) -> u32
        ensures { result ≡ self }
    {
        self.bits
    }
}
