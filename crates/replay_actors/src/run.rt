//! The race as a whole.
ghost use Rattle.std.specs.Prelude.{◌≡◌, ◌≤◌, IfOk, OnOk, length, min, Some};
ghost use Rattle.turnstile.specs.Seats.{view};
ghost use Rattle.window_snapshot.specs.Mask.{mask_has};
ghost use Rattle.dispatch_core.specs.Machine.{called};
ghost use Rattle.dispatch_core.specs.Recorded.{IsSound};
ghost use Rattle.input_service.specs.Services.{IsOf};
ghost use Rattle.replay_actors.specs.Raced.{Raced, OnlyOpens};
ghost use Rattle.replay_actors.specs.Race.{IsRace, seats_from};
ghost use Rattle.replay_actors.specs.Ends.{IsSettledRace};
ghost use Rattle.replay_actors.specs.Plans.{parts_of, owners_from, scripts_before, scripted};

use crate::gate::Gate;
use crate::part::{Lanes, Owner, Part, RaceEnd};
use crate::race::{deal, gather, race};
use crate::settling::settle;
use dispatch_core::Core;
use input_service::{Seat, Service};
use session_plan::Step;
use std::alloc::{AllocError, Global};
use std::collections::LinkedList;
use std::sync::Wait;
use std::thread::Threads;

/// The applications: at most four, each with every fourth channel.
fn owners(alloc: Global, channels: u32, finishing: u64) -> Result<LinkedList<Part>, AllocError>
    ensures { IfOk result (λ parts. parts ≡ owners_from channels finishing 0 (min 4 channels)) }
{
    let mut parts = LinkedList::new(alloc);
    let mut number = channels.min(4);
    'owners: while 0 < number {
        number -= 1;
        parts.push_front(Part::Application(Owner {
            number,
            channels,
            finishing,
        }))?;
    }
    Ok(parts)
}

/// Puts the scripts before other parts, in their order.
fn with_scripts(parts: &mut LinkedList<Part>, mut scripts: Vec<Vec<Step>>) -> Result<(), AllocError>
    requires { length scripts.items ≤ 8 }
    ensures { OnOk result (parts.new ≡ scripts_before parts.old 0 scripts.items) }
{
    'scripts: while let Some(steps) = scripts.pop() {
        let lane = scripts.len() as u8 + 2;
        parts.push_front(Part::Script { lane, steps })?;
    }
    Ok(())
}

/// The parts of a race.
fn parts_of(alloc: Global, lanes: Lanes) -> Result<LinkedList<Part>, AllocError>
    requires { length lanes.scripts.items ≤ 8 }
    ensures { IfOk result (λ parts. parts ≡ parts_of lanes) }
{
    let Lanes {
        cooked,
        scripts,
        channels,
        finishing,
    } = lanes;
    let mut parts = owners(alloc, channels, finishing)?;
    with_scripts(&mut parts, scripts)?;
    parts.push_front(Part::Dispatcher)?;
    parts.push_front(Part::Reader(cooked))?;
    Ok(parts)
}

/// Runs the lanes beside each other, and gives the core once all have ended.
fn run_threads<R: Threads + Wait + Sync, G: Gate + Sync>(
    rt: &R,
    alloc: Global,
    service: Service,
    mut seat: Seat,
    lanes: Lanes,
    gate: &G,
) -> Result<Core, AllocError>
    requires few { (lanes.channels ≤ 64) × (length lanes.scripts.items ≤ 8) }
    requires of { IsOf service seat }
    requires zero { ((view seat).mine.number ≡ 0) × ((view seat).mine.made ≡ 0) }
    requires opens { OnlyOpens (view seat).mine.own }
    ensures displays { IfOk result (λ core. (view seat).setup ≡ Some core.displays) }
    ensures raced { IfOk result
        (λ core. Raced core.displays (mask_has lanes.finishing) lanes.channels (view seat).mine.own lanes.cooked.items
        (scripted lanes.scripts.items) (called core.entries)) }
{
    let parts = parts_of(alloc, lanes)?;
    let jobs = deal(alloc, &service, &mut seat, parts)?;
    let seats = race(rt, alloc, &service, gate, jobs)?;
    gather(&service, &mut seat, seats);
    Ok(service.close(rt, seat))
}

/// The numbers of the seats of the scripts: those behind the reader's and the dispatcher's.
fn script_seats(alloc: Global, scripts: usize) -> Result<Vec<u64>, AllocError>
    requires { scripts ≤ 8 }
    ensures { IfOk result (λ seats. seats.items ≡ seats_from 3 scripts) }
{
    let mut seats = Vec::new(alloc);
    'seats: for k in 0..scripts {
        seats.push(3 + k as u64)?;
    }
    Ok(seats)
}

/// Runs the lanes beside each other until all have ended, and then does all that is left to do: by the history of the
/// core it is a race of these lanes. Once nothing is left to do the core is not called any more. Running out of memory
/// is the only other answer.
pub fn run_lanes<R: Threads + Wait + Sync, G: Gate + Sync>(
    rt: &R,
    alloc: Global,
    service: Service,
    seat: Seat,
    lanes: Lanes,
    gate: &G,
) -> Result<RaceEnd, AllocError>
    requires few { (lanes.channels ≤ 64) × (length lanes.scripts.items ≤ 8) }
    requires of { IsOf service seat }
    requires zero { ((view seat).mine.number ≡ 0) × ((view seat).mine.made ≡ 0) }
    requires opens { OnlyOpens (view seat).mine.own × (length (view seat).mine.own ≡ lanes.channels) }
    ensures displays { IfOk result (λ end. (view seat).setup ≡ Some end.core.displays) }
    ensures race { IfOk result
        (λ end. IsRace end.core.displays (mask_has lanes.finishing) (view seat).mine.own lanes.cooked.items
        (scripted lanes.scripts.items) end.script_seats.items (called end.core.entries)) }
    ensures settled { IfOk result
        (λ end. IsSettledRace end.core.displays (mask_has lanes.finishing) lanes.channels (view seat).mine.own
        lanes.cooked.items (scripted lanes.scripts.items) (called end.core.entries)) }
    ensures seats { IfOk result (λ end. length end.script_seats.items ≡ length lanes.scripts.items) }
    ensures sound { IfOk result (λ end. IsSound end.core) }
{
    let script_seats = script_seats(alloc, lanes.scripts.len())?;
    let (channels, finishing) = (lanes.channels, lanes.finishing);
    let mut core = run_threads(rt, alloc, service, seat, lanes, gate)?;
    settle(&mut core, channels, finishing)?;
    Ok(RaceEnd { core, script_seats })
}
