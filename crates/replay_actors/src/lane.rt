//! A lane of a race, and its calls.
ghost use Rattle.std.specs.Prelude.{IfOk, OnErr};
ghost use Rattle.turnstile.specs.Seats.{view};
ghost use Rattle.input_service.specs.Services.{IsOf};
ghost use Rattle.replay_actors.specs.Seats.{Stays, Adds, Refuses};

use crate::gate::Gate;
use dispatch_calls::{Call, Reply};
use input_service::{Seat, Service};
use std::alloc::AllocError;
use std::sync::Wait;

/// What all lanes share.
#[derive(Drop)]
pub(crate) struct Shared<'a, R, G> {
    pub(crate) rt: &'a R,
    pub(crate) service: &'a Service,
    pub(crate) gate: &'a G,
}

/// A lane: its number at the gate, how many calls it has made, and its seat.
#[derive(Drop)]
pub(crate) struct Lane {
    pub(crate) number: u8,
    pub(crate) turn: u64,
    pub(crate) seat: Seat,
}

impl Lane {
    /// Arrives at the gate, makes a call and gives its reply.
    #[tactic(auto, using(crate::proofs::Calls::answered_stays, crate::proofs::Calls::answered_adds))]
    pub(crate) fn call<'a, R: Wait, G: Gate>(
        &mut self,
        shared: &Shared<'a, R, G>,
        call: Call,
    ) -> Result<Reply, AllocError>
        requires { IsOf shared.now.service.now self.old.seat }
        ensures of { IsOf shared.now.service.now self.new.seat }
        ensures stays { Stays (view self.old.seat) (view self.new.seat) }
        ensures made { IfOk result (λ reply. Adds call reply (view self.old.seat) (view self.new.seat)) }
        ensures refused { OnErr result (Refuses (view self.old.seat) (view self.new.seat)) }
    {
        shared.gate.arrive(self.number, self.turn);
        self.turn = self.turn.wrapping_add(1);
        let placed = shared.service.call(shared.rt, &mut self.seat, call)?;
        Ok(placed.reply)
    }
}
