//! Numbers that chance makes.
ghost use Rattle.std.specs.Prelude.{◌<◌, ◌≤◌};

/// Numbers that look random, and are the same for the same seed: each is made from the one before.
#[derive(Drop)]
pub(crate) struct Chance {
    state: u32,
}

impl Chance {
    pub(crate) fn new(seed: u32) -> Chance {
        Chance { state: seed }
    }

    /// The next number, which is below `n`.
    pub(crate) fn below(&mut self, n: u32) -> u32
        requires { 1 ≤ n }
        ensures { result < n }
    {
        self.state = self
            .state
            .wrapping_mul(1_664_525)
            .wrapping_add(1_013_904_223);
        self.state / 65_536 % n
    }
}
