//! What a window says of touches that come through it to windows of other owners.
ghost use Rattle.std.specs.Prelude.{◌≡◌, ◌≤◌, ◌↔◌, IsSome, IfSome};
ghost use Rattle.window_snapshot.specs.Opaque.{is_blocking, is_dimming};

use std::marker::Model;

/// A share in per cent, from 0 to 100.
#[derive(Clone, Copy, Debug, PartialEq, Eq)]
pub struct Percent {
    number: u8,
}

impl Model for Percent {
    ghost use Rattle.std.specs.Prelude.{ℕ, ◌≤◌};

    ghost Value = { ℕ };

    ghost view = { λ p. p.number };

    ghost invariant = { λ p. p.number ≤ 100 };

    ghost inverse = { λ n. record { number = n } };
}

impl Percent {
    /// The greatest share: the whole.
    pub const MAX: u8 = 100;

    /// The share with this number, which has to be 0 to 100.
    pub fn new(n: u8) -> Option<Percent>
        ensures variant { IsSome result ↔ (n ≤ 100) }
        ensures value { IfSome result (λ p. p ≡ n) }
    {
        if n <= Self::MAX {
            Some(Percent { number: n })
        } else {
            None
        }
    }

    /// The whole.
    pub fn whole() -> Percent
        ensures { result ≡ 100 }
    {
        Percent { number: 100 }
    }

    /// The number.
    pub fn get(self) -> u8
        ensures value { result ≡ self }
        ensures range { result ≤ 100 }
    {
        self.number
    }
}

/// Whether a touch may go through a window to a window of another owner. These are the three modes that Android's
/// windows have (`touchOcclusionMode`).
#[derive(Clone, Copy, Debug, PartialEq, Eq)]
pub enum Occlusion {
    /// It may not.
    Block,
    /// It may while the windows of one owner leave enough to be seen of what is behind them.
    Opacity,
    /// It may.
    Allow,
}

impl Occlusion {
    /// Whether no touch may go through it.
    pub fn is_blocking(self) -> bool
        ensures { result ≡ is_blocking self }
    {
        match self {
            Occlusion::Block => true,
            Occlusion::Opacity | Occlusion::Allow => false,
        }
    }

    /// Whether its opacity decides.
    pub fn is_dimming(self) -> bool
        ensures { result ≡ is_dimming self }
    {
        match self {
            Occlusion::Opacity => true,
            Occlusion::Block | Occlusion::Allow => false,
        }
    }
}
