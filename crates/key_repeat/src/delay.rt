//! How long a key is held before it is repeated.
ghost use Rattle.std.specs.Prelude.{ℕ, ◌≡◌, ◌≤◌, ◌↔◌, IsSome, IfSome};

use std::marker::Model;

/// A delay of repeats: 1,000 to 600,000,000 microseconds.
#[derive(Clone, Copy, Debug, PartialEq, Eq)]
pub struct Delay {
    us: u64,
}

impl Model for Delay {
    ghost Value = { ℕ };

    ghost view = { λ d. d.us };

    ghost invariant = { (λ d. (1000 ≤ d.us) × (d.us ≤ 600000000)) };

    ghost inverse = { λ n. record { us = n } };
}

impl Delay {
    /// The least delay, in microseconds.
    pub const MIN_US: u64 = 1_000;

    /// The greatest delay, in microseconds: ten minutes.
    pub const MAX_US: u64 = 600_000_000;

    /// The delay with this many microseconds, which must be 1,000 to 600,000,000.
    pub fn new(us: u64) -> Option<Delay>
        ensures variant { IsSome result ↔ ((1000 ≤ us) × (us ≤ 600000000)) }
        ensures value { IfSome result (λ d. d ≡ us) }
    {
        if Self::MIN_US <= us && us <= Self::MAX_US {
            Some(Delay { us })
        } else {
            None
        }
    }

    /// Its microseconds.
    pub fn get(self) -> u64
        ensures value { result ≡ self }
        ensures range { (1000 ≤ result) × (result ≤ 600000000) }
    {
        self.us
    }
}
