//! Lanes beside each other, and the seats that they need.
ghost use Rattle.std.specs.Prelude.{◌≡◌, ◌+◌, ◌<◌, ◌∷◌, IfOk, length};
ghost use Rattle.std.specs.Thread.{IsSync};
ghost use Rattle.turnstile.specs.Seats.{view};
ghost use Rattle.input_service.specs.Services.{IsOf};
ghost use Rattle.replay_actors.specs.Jobs.{IsReady, AllReady, Dealt, Ended, AllEnded, AllOf, records_before, SplitOff, SameOwn};

use crate::gate::Gate;
use crate::job::{Job, Promised};
use crate::part::Part;
use input_service::{Seat, Service};
use std::alloc::{AllocError, Global};
use std::collections::LinkedList;
use std::snapshot::Snapshot;
use std::sync::Wait;
use std::thread;
use std::thread::Threads;

/// A seat for each part, in order: their numbers come one after another.
pub(crate) fn deal(
    alloc: Global,
    service: &Service,
    zero: &mut Seat,
    mut parts: LinkedList<Part>,
) -> Result<LinkedList<Job>, AllocError>
    requires of { IsOf service.now zero.old }
    requires zero { (view zero.old).mine.number ≡ 0 }
    requires room { (view zero.old).mine.made + length parts < 4294967295 }
    ensures of { IsOf service.now zero.new }
    ensures split { IfOk result (λ jobs. SplitOff (length parts) (view zero.old) (view zero.new)) }
    ensures dealt { IfOk result (λ jobs. Dealt service.now ((view zero.old).mine.made + 1) parts jobs) }
{
    let Some(part) = parts.pop_front() else {
        return Ok(LinkedList::new(alloc));
    };
    let seat = service.try_split(zero)?;
    let mut jobs = deal(alloc, service, zero, parts)?;
    jobs.push_front(Job { part, seat })?;
    Ok(jobs)
}

/// Takes the seats back into the first one.
pub(crate) fn gather(service: &Service, zero: &mut Seat, mut seats: LinkedList<Seat>)
    requires of { IsOf service.now zero.old }
    requires seats { AllOf service.now seats }
    ensures of { IsOf service.now zero.new }
    ensures same { SameOwn (view zero.old) (view zero.new) }
    ensures joined { (view zero.new).joined ≡ records_before (view zero.old).joined seats }
{
    let Some(seat) = seats.pop_front() else {
        return;
    };
    gather(service, zero, seats);
    service.join(zero, seat);
}

/// Runs each job in a thread of its own, beside the others, and gives the seats back in the order of the jobs. A job
/// whose thread can't be started is run here. A script without steps has no thread.
pub(crate) fn race<R: Threads + Wait + Sync, G: Gate + Sync>(
    rt: &R,
    alloc: Global,
    service: &Service,
    gate: &G,
    mut jobs: LinkedList<Job>,
) -> Result<LinkedList<Seat>, AllocError>
    requires { AllReady service.now jobs }
    ensures { IfOk result (λ seats. AllEnded service.now jobs seats) }
{
    let Some(job) = jobs.pop_front() else {
        return Ok(LinkedList::new(alloc));
    };
    if job.part.is_nothing() {
        let Job { seat, .. } = job;
        let mut seats = race(rt, alloc, service, gate, jobs)?;
        seats.push_front(seat)?;
        return Ok(seats);
    }
    thread::scope(
        thread::scope_env(),
        rt,
        |scope| -> Result<LinkedList<Seat>, AllocError>
            requires { IsSync R.row × IsSync G.row × IsReady service.now job × AllReady service.now jobs }
            ensures { IfOk result (λ seats. AllEnded service.entry.now (job ∷ jobs) seats) }
        {
            let promised = Promised {
                job: Snapshot::of(&job),
                service: Snapshot::of(service),
            };
            let started = scope.spawn_with(
                promised,
                move || -> Result<Seat, AllocError>
                    requires { IsReady service.now job }
                    ensures { IfOk result (λ s. IsOf service.entry.now s × Ended job s) }
                { job.run(rt, service, gate) },
            );
            let rest = race(rt, alloc, service, gate, jobs);
            let first = match started {
                Ok(handle) => handle.join(rt),
                Err(refused) => (refused.value)(),
            };
            let mut seats = rest?;
            seats.push_front(first?)?;
            Ok(seats)
        },
    )
}
