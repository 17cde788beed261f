//! The calls of a service.
ghost use Rattle.std.specs.Prelude.{◌≡◌, ◌<◌, [], Some, IfOk, IsOk};
ghost use Rattle.dispatch_core.specs.Machine.{IsLegal, called};
ghost use Rattle.turnstile.specs.Answers.{TryAnswers, Answers, LookAnswers, Closes};
ghost use Rattle.turnstile.specs.Seats.{view};
ghost use Rattle.turnstile.specs.Views.{newcomer, next_seat, split_off, together};
ghost use Rattle.input_service.specs.Replies.{Replied};
ghost use Rattle.input_service.specs.Services.{IsOf};

use crate::service::{Seat, Service};
use dispatch_calls::{Call, Reply};
use dispatch_core::Core;
use std::alloc::{AllocError, Global};
use std::sync::Wait;
use turnstile::{Placed, TryRefused, Turnstile};

impl Service {
    /// A service over a core that has answered no call, and its first seat, number 0. If memory runs out, the core is
    /// dropped.
    pub fn new(alloc: Global, core: Core) -> Result<(Service, Seat), AllocError>
        requires { core.entries ≡ [] }
        ensures { IfOk result (λ r. IsOf r.0 r.1 × (view r.1 ≡ newcomer (Some core.displays) 0 0 [])) }
    {
        let (turnstile, seat) = Turnstile::new(alloc, core)?;
        Ok((Service { turnstile }, seat))
    }

    /// Answers a call if no other seat has the turn, and never waits. `Busy` hands the call back. `Memory` means that
    /// the core ran out of memory: the call is dropped, and there is no entry.
    pub fn try_call(&self, seat: &mut Seat, call: Call) -> Result<Placed<Reply>, TryRefused<Call>>
        requires { IsOf self.now seat.old }
        ensures same { IsOf self.now seat.new }
        ensures answer { TryAnswers IsLegal (view seat.old) call result (view seat.new) }
        ensures reply { IfOk result (λ p. Replied (view seat.old) call p (view seat.new)) }
    {
        self.turnstile.try_step(seat, call)
    }

    /// The same, but tries again until it has the turn.
    pub fn call<R: Wait>(
        &self,
        rt: &R,
        seat: &mut Seat,
        call: Call,
    ) -> Result<Placed<Reply>, AllocError>
        requires { IsOf self.now seat.old }
        ensures same { IsOf self.now seat.new }
        ensures answer { Answers IsLegal (view seat.old) call result (view seat.new) }
        ensures reply { IfOk result (λ p. Replied (view seat.old) call p (view seat.new)) }
    {
        self.turnstile.step(rt, seat, call)
    }

    /// The length of the history, all of which the seat has then seen. Does not take the turn.
    pub fn look(&self, seat: &mut Seat) -> u64
        requires { IsOf self.now seat.old }
        ensures same { IsOf self.now seat.new }
        ensures answer { LookAnswers IsLegal (view seat.old) result (view seat.new) }
    {
        self.turnstile.look(seat)
    }

    /// Splits a new seat off seat 0. Its number is the next one, and it has seen what seat 0 has. Does not take the
    /// turn, and currently needs no memory.
    pub fn try_split(&self, seat: &mut Seat) -> Result<Seat, AllocError>
        requires seat { IsOf self.now seat.old }
        requires zero { (view seat.old).mine.number ≡ 0 }
        requires room { (view seat.old).mine.made < 4294967295 }
        ensures same { IsOf self.now seat.new }
        ensures answers { IsOk result }
        ensures new { IfOk result (λ s. IsOf self.now s × (view s ≡ next_seat (view seat.old))) }
        ensures rest { view seat.new ≡ split_off (view seat.old) }
    {
        self.turnstile.try_split(seat)
    }

    /// Joins another seat into this one, which has then seen what either had.
    pub fn join(&self, seat: &mut Seat, other: Seat)
        requires seat { IsOf self.now seat.old }
        requires other { IsOf self.now other }
        ensures same { IsOf self.now seat.new }
        ensures both { view seat.new ≡ together (view seat.old) (view other) }
    {
        self.turnstile.join(seat, other);
    }

    /// Waits for the turn, and returns the core with its history.
    pub fn close<R: Wait>(self, rt: &R, seat: Seat) -> Core
        requires { IsOf self seat }
        ensures displays { (view seat).setup ≡ Some result.displays }
        ensures history { Closes IsLegal (view seat) (called result.entries) }
    {
        let Service { turnstile } = self;
        turnstile.close(rt, seat)
    }
}
