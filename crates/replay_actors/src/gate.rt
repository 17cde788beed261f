//! What may hold a lane of a race.

/// A gate, at which each lane arrives before each of its calls.
pub trait Gate {
    /// The lane is about to make a call, its `turn`-th, counted from 0. It goes on when this returns.
    fn arrive(&self, lane: u8, turn: u64);
}

/// The gate that holds nobody.
pub struct NoGate;

impl Gate for NoGate {
    fn arrive(&self, _lane: u8, _turn: u64) {}
}
