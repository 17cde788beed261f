//! Numbers with a range: devices, displays, pointer ids, moments and timeouts.
ghost use Rattle.std.specs.Prelude.{◌≡◌, ℕ, ◌<◌, ◌≤◌, ◌↔◌, Some, IsSome, IfSome, max};

use std::marker::Model;

/// The number of an input device in its session, from 1 to 8.
#[derive(Clone, Copy, Debug, PartialEq, Eq)]
pub struct DeviceId {
    number: u8,
}

impl Model for DeviceId {
    ghost Value = { ℕ };

    ghost view = { λ d. d.number };

    ghost invariant = { (λ d. (1 ≤ d.number) × (d.number ≤ 8)) };

    ghost inverse = { λ n. record { number = n } };
}

impl DeviceId {
    /// The greatest number of a device.
    pub const MAX: u8 = 8;

    /// The device with this number, which must be 1 to 8.
    pub fn new(n: u8) -> Option<DeviceId>
        ensures variant { IsSome result ↔ ((1 ≤ n) × (n ≤ 8)) }
        ensures value { IfSome result (λ d. d ≡ n) }
    {
        if 1 <= n && n <= Self::MAX {
            Some(DeviceId { number: n })
        } else {
            None
        }
    }

    pub fn get(self) -> u8
        ensures value { result ≡ self }
        ensures range { (1 ≤ result) × (result ≤ 8) }
    {
        self.number
    }
}

/// The number of a display in its session, from 0 to 3. Display 0 is always there.
#[derive(Clone, Copy, Debug, PartialEq, Eq)]
pub struct DisplayId {
    number: u8,
}

impl Model for DisplayId {
    ghost Value = { ℕ };

    ghost view = { λ d. d.number };

    ghost invariant = { λ d. d.number ≤ 3 };

    ghost inverse = { λ n. record { number = n } };
}

impl DisplayId {
    /// The greatest number of a display.
    pub const MAX: u8 = 3;

    /// The display that is always there.
    pub fn zero() -> DisplayId
        ensures { result ≡ 0 }
    {
        DisplayId { number: 0 }
    }

    /// The display with this number, which must be 0 to 3.
    pub fn new(n: u8) -> Option<DisplayId>
        ensures variant { IsSome result ↔ (n ≤ 3) }
        ensures value { IfSome result (λ d. d ≡ n) }
    {
        if n <= Self::MAX {
            Some(DisplayId { number: n })
        } else {
            None
        }
    }

    /// Its number.
    pub fn get(self) -> u8
        ensures value { result ≡ self }
        ensures range { result ≤ 3 }
    {
        self.number
    }
}

/// The id of a pointer in the motions of its device, from 0 to 31, as MotionEvent's `getPointerId` gives it.
#[derive(Clone, Copy, Debug, PartialEq, Eq)]
pub struct PointerId {
    number: u8,
}

impl Model for PointerId {
    ghost Value = { ℕ };

    ghost view = { λ p. p.number };

    ghost invariant = { λ p. p.number ≤ 31 };

    ghost inverse = { λ n. record { number = n } };
}

impl PointerId {
    /// The greatest pointer id.
    pub const MAX: u8 = 31;

    /// The least pointer id.
    pub fn zero() -> PointerId
        ensures { result ≡ 0 }
    {
        PointerId { number: 0 }
    }

    /// The pointer id of this number, which must be 0 to 31.
    pub fn new(n: u8) -> Option<PointerId>
        ensures variant { IsSome result ↔ (n ≤ 31) }
        ensures value { IfSome result (λ p. p ≡ n) }
    {
        if n <= Self::MAX {
            Some(PointerId { number: n })
        } else {
            None
        }
    }

    pub fn get(self) -> u8
        ensures value { result ≡ self }
        ensures range { result ≤ 31 }
    {
        self.number
    }
}

/// A time of the recording's clock in microseconds, from 0 to 10^18 (some 31,000 years).
#[derive(Clone, Copy, Debug, PartialEq, Eq)]
pub struct Moment {
    us: u64,
}

impl Model for Moment {
    ghost Value = { ℕ };

    ghost view = { λ m. m.us };

    ghost invariant = { λ m. m.us ≤ 1000000000000000000 };

    ghost inverse = { λ n. record { us = n } };
}

impl Moment {
    /// The latest time, in microseconds.
    pub const MAX_US: u64 = 1_000_000_000_000_000_000;

    /// The earliest time of a clock.
    pub fn zero() -> Moment
        ensures { result ≡ 0 }
    {
        Moment { us: 0 }
    }

    /// The time with this many microseconds, which must be at most 10^18.
    pub fn new(us: u64) -> Option<Moment>
        ensures variant { IsSome result ↔ (us ≤ 1000000000000000000) }
        ensures value { IfSome result (λ m. m ≡ us) }
    {
        if us <= Self::MAX_US {
            Some(Moment { us })
        } else {
            None
        }
    }

    /// Its microseconds.
    pub fn get(self) -> u64
        ensures value { result ≡ self }
        ensures range { result ≤ 1000000000000000000 }
    {
        self.us
    }

    /// The later of two moments.
    #[inline]
    pub fn later(self, other: Moment) -> Moment
        ensures { result ≡ max self other }
    {
        if self.us < other.us { other } else { self }
    }
}

/// How long a window may leave a message unfinished before it counts as unresponsive: 1,000 to 600,000,000
/// microseconds.
#[derive(Clone, Copy, Debug, PartialEq, Eq)]
pub struct Limit {
    us: u64,
}

impl Model for Limit {
    ghost Value = { ℕ };

    ghost view = { λ l. l.us };

    ghost invariant = { (λ l. (1000 ≤ l.us) × (l.us ≤ 600000000)) };

    ghost inverse = { λ n. record { us = n } };
}

impl Limit {
    /// The least timeout, in microseconds.
    pub const MIN_US: u64 = 1_000;

    /// The greatest timeout, in microseconds: ten minutes.
    pub const MAX_US: u64 = 600_000_000;

    /// The timeout with this many microseconds, which must be 1,000 to 600,000,000.
    pub fn new(us: u64) -> Option<Limit>
        ensures variant { IsSome result ↔ ((1000 ≤ us) × (us ≤ 600000000)) }
        ensures value { IfSome result (λ l. l ≡ us) }
    {
        if Self::MIN_US <= us && us <= Self::MAX_US {
            Some(Limit { us })
        } else {
            None
        }
    }

    /// Its microseconds.
    pub fn get(self) -> u64
        ensures value { result ≡ self }
        ensures range { (1000 ≤ result) × (result ≤ 600000000) }
    {
        self.us
    }
}
