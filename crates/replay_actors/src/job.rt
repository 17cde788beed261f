//! The job of a thread: one lane, from its first call to its last.
ghost use Rattle.std.specs.Prelude.{◌≡◌, [], IfOk, OnOk};
ghost use Rattle.turnstile.specs.Seats.{view};
ghost use Rattle.input_service.specs.Services.{IsOf};
ghost use Rattle.replay_actors.specs.Seats.{Stays};
ghost use Rattle.replay_actors.specs.Parts.{Did, IsPart};
ghost use Rattle.replay_actors.specs.Jobs.{IsReady, Ended};

use crate::answered::dispatch;
use crate::gate::Gate;
use crate::lane::{Lane, Shared};
use crate::part::Part;
use crate::planned::{follow, read};
use input_service::{Seat, Service};
use std::alloc::AllocError;
use std::snapshot::Snapshot;
use std::sync::Wait;
use std::thread::Promise;

/// A lane's part of the race, and the seat that it makes its calls with.
#[derive(Drop)]
pub(crate) struct Job {
    pub(crate) part: Part,
    pub(crate) seat: Seat,
}

/// What a job promises: the seat comes back, and its calls are all those of the part.
#[derive(Drop)]
pub(crate) struct Promised {
    pub(crate) job: Snapshot<Job>,
    pub(crate) service: Snapshot<Service>,
}

impl Promise<Result<Seat, AllocError>> for Promised {
    ghost kept_by = { λ p r. IfOk r (λ s. IsOf p.service.value s × Ended p.job.value s) };
}

/// Makes the calls of a part.
fn run_part<'a, R: Wait, G: Gate>(
    shared: &Shared<'a, R, G>,
    lane: &mut Lane,
    part: Part,
) -> Result<(), AllocError>
    requires of { IsOf shared.now.service.now lane.old.seat }
    requires new { (view lane.old.seat).mine.own ≡ [] }
    requires part { IsPart part }
    ensures of { IsOf shared.now.service.now lane.new.seat }
    ensures stays { Stays (view lane.old.seat) (view lane.new.seat) }
    ensures did { OnOk result (Did part (view lane.new.seat).mine.own) }
{
    match part {
        Part::Reader(cooked) => read(shared, lane, &cooked),
        Part::Dispatcher => dispatch(shared, lane),
        Part::Script { steps, .. } => follow(shared, lane, steps),
        Part::Application(owner) => owner.attend(shared, lane),
    }
}

impl Job {
    /// Makes the calls, and gives the seat back.
    pub(crate) fn run<R: Wait, G: Gate>(
        self,
        rt: &R,
        service: &Service,
        gate: &G,
    ) -> Result<Seat, AllocError>
        requires { IsReady service.now self }
        ensures { IfOk result (λ s. IsOf service.now s × Ended self s) }
    {
        let Job { part, seat } = self;
        let mut lane = Lane {
            number: part.lane(),
            turn: 0,
            seat,
        };
        let shared = Shared { rt, service, gate };
        run_part(&shared, &mut lane, part)?;
        let Lane { seat, .. } = lane;
        Ok(seat)
    }
}
