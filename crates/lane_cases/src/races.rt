//! The races: a reader of three args, a dispatcher, a script that shows the same windows twice, and two applications.
use crate::arrivals::Arrivals;
use crate::gates::{Meeting, Place, Until};
use crate::made::{channel, cooked, scripts};
use dispatch_calls::Call;
use dispatch_core::Core;
use input_service::Service;
use input_types::Displays;
use key_repeat::Repeats;
use replay_actors::{Gate, Lanes, RaceEnd, open_channels, run_lanes};
use std::alloc::Global;
use std::io;
use std::sync::Wait;
use std::thread::Threads;

/// A race with a gate.
fn race<R: Threads + Wait + Sync, G: Gate + Sync>(
    rt: &R,
    alloc: Global,
    gate: &G,
) -> io::Result<RaceEnd> {
    let core = Core::new(alloc, &Displays::new())?;
    let (service, mut seat) = Service::new(alloc, core)?;
    let channels = [channel(alloc, "left")?, channel(alloc, "right")?];
    let repeats = Some(Repeats::android());
    open_channels(rt, &service, &mut seat, &channels, repeats)?;
    let lanes = Lanes {
        cooked: cooked(alloc)?,
        scripts: scripts(alloc)?,
        channels: 2,
        finishing: 3,
    };
    Ok(run_lanes(rt, alloc, service, seat, lanes, gate)?)
}

/// How many args were handed in before the first windows.
fn args_before_windows(core: &Core) -> u64 {
    let mut count = 0u64;
    for entry in core.history() {
        match entry.call {
            Call::Windows { .. } => return count,
            Call::Notify { .. } => count = count.saturating_add(1),
            _ => {}
        }
    }
    count
}

/// Prints how far the channels have come.
fn print_counts<R: Print>(rt: &R, core: &Core) -> io::Result<()> {
    for channel in 1..3 {
        if let Some(counts) = core.counts(channel) {
            println!(rt;
                "channel {channel}: sent {} received {} finished {}",
                counts.sent, counts.received, counts.finished
            )?;
        }
    }
    Ok(())
}

/// The reader and the script wait for each other at their first calls.
fn meeting<R: Threads + Wait + Print + Sync>(rt: &R, alloc: Global) -> io::Result<()> {
    let gate = Meeting::new(Place { lane: 0, turn: 0 }, Place { lane: 2, turn: 0 });
    race(rt, alloc, &gate)?;
    println!(rt; "the reader and the script meet: {}", gate.held())
}

/// The script is held until the reader has handed in two args.
fn reader_first<R: Threads + Wait + Print + Sync>(rt: &R, alloc: Global) -> io::Result<()> {
    let gate = Until::new(Place { lane: 2, turn: 0 }, Place { lane: 0, turn: 2 });
    let end = race(rt, alloc, &gate)?;
    println!(rt;
        "the script is held: {}, at least two args before the windows: {}",
        gate.held(),
        2 <= args_before_windows(&end.core)
    )
}

/// The reader is held until the script has shown the windows. So all args find windows, whose applications are sent
/// all there is.
fn script_first<R: Threads + Wait + Print + Sync>(rt: &R, alloc: Global) -> io::Result<()> {
    let gate = Until::new(Place { lane: 0, turn: 0 }, Place { lane: 2, turn: 1 });
    let end = race(rt, alloc, &gate)?;
    println!(rt;
        "the reader is held: {}, args before the windows: {}",
        gate.held(),
        args_before_windows(&end.core)
    )?;
    print_counts(rt, &end.core)
}

/// How many calls the seats 1 to 5 have made.
fn calls_made(core: &Core) -> [u64; 5] {
    let mut made = [0u64; 5];
    for entry in core.history() {
        let seat = entry.seat as usize;
        if 1 <= seat && seat <= 5 {
            made[seat - 1] = made[seat - 1].saturating_add(1);
        }
    }
    made
}

/// Each lane arrives before each of its calls, at turns that are counted from 0.
fn arrivals<R: Threads + Wait + Print + Sync>(rt: &R, alloc: Global) -> io::Result<()> {
    let gate = Arrivals::new();
    let end = race(rt, alloc, &gate)?;
    println!(rt;
        "each lane arrives before each of its calls: {}",
        gate.counted() == Some(calls_made(&end.core))
    )
}

/// All of them.
pub(crate) fn print_all<R: Threads + Wait + Print + Sync>(rt: &R, alloc: Global) -> io::Result<()> {
    meeting(rt, alloc)?;
    reader_first(rt, alloc)?;
    script_first(rt, alloc)?;
    arrivals(rt, alloc)
}
