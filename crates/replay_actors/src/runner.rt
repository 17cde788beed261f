//! The lanes of a race, run from a start that holds all that they need.
ghost use Rattle.std.specs.Prelude.{IfOk};
ghost use Rattle.replay_actors.specs.Starts.{Left, MayRun};

use crate::gate::Gate;
use crate::part::{Lanes, RaceEnd};
use crate::run::run_lanes;
use input_service::{Seat, Service};
use std::alloc::{AllocError, Global};
use std::sync::Wait;
use std::thread::Threads;

/// What a race begins with: a service whose channels its caller has opened, the caller's seat, and what the lanes are
/// to do.
#[derive(Drop)]
pub struct Start {
    pub service: Service,
    pub seat: Seat,
    pub lanes: Lanes,
}

/// Runs the lanes as threads, at which the gate stands, until all have ended, and then does all that is left to do.
/// Running out of memory is the only other answer, and then no core is left.
pub fn run_start<R: Threads + Wait + Sync, G: Gate + Sync>(
    rt: &R,
    alloc: Global,
    start: Start,
    gate: &G,
) -> Result<RaceEnd, AllocError>
    requires { MayRun start }
    ensures { IfOk result (Left start) }
{
    let Start {
        service,
        seat,
        lanes,
    } = start;
    run_lanes(rt, alloc, service, seat, lanes, gate)
}
