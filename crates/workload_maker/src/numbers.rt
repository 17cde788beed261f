//! The numbers that a workload is drawn with.
ghost use Rattle.std.specs.Prelude.{◌≡◌, ◌<◌};
ghost use Rattle.workload_maker.specs.Numbers.{drawn_after, first_number};

use std::marker::Model;

/// The product of the last number and this factor, modulo a prime, is the next number: Lehmer's generator with the
/// constants of `minstd_rand` in the library of C++.
const FACTOR: u64 = 48_271;

/// That prime, 2^31 - 1.
const MODULUS: u64 = 2_147_483_647;

/// A source of numbers. Contracts see it as the number that was drawn last.
#[derive(Drop)]
pub(crate) struct Numbers {
    last: u64,
}

impl Model for Numbers {
    ghost use Rattle.std.specs.Prelude.{ℕ, ◌<◌};

    ghost Value = { ℕ };

    ghost view = { λ n. n.last };

    ghost invariant = { λ n. n.last < 2147483647 };
}

impl Numbers {
    /// The numbers of a seed.
    #[tactic(auto, unfolding(crate::specs::Numbers::first_number))]
    pub(crate) fn new(seed: u32) -> Numbers
        ensures { result ≡ first_number seed }
    {
        Numbers {
            last: u64::from(seed) % (MODULUS - 1) + 1,
        }
    }

    /// The next number.
    #[tactic(auto, unfolding(crate::specs::Numbers::drawn_after))]
    pub(crate) fn draw(&mut self) -> u64
        ensures value { result ≡ drawn_after self.old }
        ensures last { self.new ≡ drawn_after self.old }
    {
        self.last = self.last * FACTOR % MODULUS;
        self.last
    }
}
