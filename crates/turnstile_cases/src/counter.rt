//! A machine that counts: each call adds an amount, and its reply is the total.
ghost use Rattle.std.specs.Prelude.{◌≡◌, [], reverse};
ghost use Rattle.turnstile_cases.specs.Counting.{total_after, IsCounted};

use std::alloc::{AllocError, Global};
use turnstile::Machine;

/// It is set up with the total to start from. Totals have 64 bits.
#[derive(Drop)]
pub(crate) struct Counter {
    start: u64,
    total: u64,
    /// The seat, the amount and the total after it, oldest first.
    entries: Vec<(u64, u64, u64)>,
    ghost total_is: { total ≡ total_after start (reverse entries.items) },
}

impl Counter {
    /// A counter that has answered no call.
    pub(crate) fn new(alloc: Global, start: u64) -> Counter
        ensures { (result.start ≡ start) × (result.entries.items ≡ []) }
    {
        Counter {
            start,
            total: start,
            entries: Vec::new(alloc),
        }
    }

    /// The calls that it has answered, oldest first: the seat, the amount and the total after it.
    pub(crate) fn entries(&self) -> &[(u64, u64, u64)]
        ensures { result.now ≡ self.now.entries.items }
    {
        self.entries.as_slice()
    }
}

impl Machine for Counter {
    type Setup = u64;

    type Call = u64;

    type Reply = u64;

    ghost legal = { IsCounted };

    ghost setup = { λ c. c.start };

    ghost history = { λ c. reverse c.entries.items };

    fn step(&mut self, seat: u64, call: u64) -> Result<u64, AllocError> {
        self.entries.reserve(1)?;
        let total = self.total.wrapping_add(call);
        let Counter {
            total: now,
            entries,
            ..
        } = self;
        entries.push_reserved((seat, call, total));
        *now = total;
        Ok(total)
    }

    fn places(&self) -> u64 {
        self.entries.len() as u64
    }

    ghost empty = { λ s. tt };
}
