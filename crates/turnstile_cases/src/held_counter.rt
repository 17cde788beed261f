//! A counter whose step is held open by a flag.
ghost use Rattle.std.specs.Prelude.{◌≡◌, reverse};
ghost use Rattle.turnstile_cases.specs.Counting.{IsCounted};

use crate::counter::Counter;
use crate::flags::Flags;
use std::alloc::AllocError;
use turnstile::Machine;

/// A counter whose step waits for a flag.
#[derive(Drop)]
pub(crate) struct HeldCounter<'a> {
    counter: Counter,
    flags: &'a Flags,
}

impl<'a> HeldCounter<'a> {
    /// A held counter over one that has answered no call.
    pub(crate) fn new(counter: Counter, flags: &'a Flags) -> HeldCounter<'a>
        ensures { result.counter ≡ counter }
    {
        HeldCounter { counter, flags }
    }

    /// The calls that it has answered, oldest first: the seat, the amount and the total after it.
    pub(crate) fn entries(&self) -> &[(u64, u64, u64)] {
        self.counter.entries()
    }
}

impl<'a> Machine for HeldCounter<'a> {
    type Setup = u64;

    type Call = u64;

    type Reply = u64;

    ghost legal = { IsCounted };

    ghost setup = { λ h. h.counter.start };

    ghost history = { λ h. reverse h.counter.entries.items };

    fn step(&mut self, seat: u64, call: u64) -> Result<u64, AllocError> {
        self.flags.hold();
        self.counter.step(seat, call)
    }

    fn places(&self) -> u64 {
        self.counter.places()
    }

    ghost empty = { λ s. tt };
}
