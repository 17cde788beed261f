//! The dispatcher with its history, as a machine that threads share.
ghost use Rattle.dispatch_core.specs.Machine.{IsLegal, called};

use crate::record::Core;
use dispatch_calls::{Call, Reply};
use input_types::Displays;
use std::alloc::AllocError;
use turnstile::Machine;

impl Machine for Core {
    type Setup = Displays;

    type Call = Call;

    type Reply = Reply;

    ghost legal = { IsLegal };

    ghost setup = { λ c. c.displays };

    ghost history = { λ c. called c.entries };

    fn step(&mut self, seat: u64, call: Call) -> Result<Reply, AllocError> {
        self.apply(seat, call)
    }

    fn places(&self) -> u64 {
        self.history().len() as u64
    }

    ghost empty = { λ displays. tt };
}
