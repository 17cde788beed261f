//! How long a gesture takes.
use crate::calls::windows;
use dispatch_calls::{Call, Reply, Terms};
use dispatcher::Dispatcher;
use input_types::{
    Args, DeviceId, Displays, Limit, Moment, Motion, MotionAction, Pixel, Pointer, PointerId,
    Pointers,
};
use key_repeat::Repeats;
use std::alloc::{AllocError, Global};
use std::io;
use std::time::Instant;

// One window over the whole display.
const ONE: &[u64] = &[0, 1, 0, 0, 0, 1080, 2400, 0];

// A spy over the upper half, a bar, and four windows.
const SIX: &[u64] = &[
    0, 1, 0, 0, 0, 1080, 1200, 16, 2, 0, 0, 2300, 1080, 2400, 0, 3, 0, 0, 0, 540, 1200, 0, 4, 0,
    540, 0, 1080, 1200, 0, 5, 0, 0, 1200, 540, 2300, 0, 6, 0, 540, 1200, 1080, 2300, 0,
];

/// Where a finger is in a round: two of ten fingers on each of five rows. The first two are under the spy, and the last
/// one is on the bar.
fn at(finger: u8, round: u64) -> Pixel {
    let shift = (round % 1080) as i32;
    let column = i32::from(finger % 2);
    let row = i32::from(finger / 2);
    Pixel {
        x: column * 540 + (row * 50 + shift * 7) % 540,
        y: row * 550 + 110 + shift * 11 % 90,
    }
}

/// The fingers 0 to `last`, at their positions in a round.
fn fingers(last: u8, round: u64) -> Pointers {
    let mut pointers = Pointers::empty();
    for finger in 0..=last {
        if let Some(id) = PointerId::new(finger) {
            let _ = pointers.push(Pointer {
                id,
                at: at(finger, round),
            });
        }
    }
    pointers
}

/// In the first rounds one finger more goes down, and after that all of them move.
fn motion(device: DeviceId, count: u8, round: u64) -> Motion {
    let last = u8::try_from(round)
        .unwrap_or(u8::MAX)
        .min(count.saturating_sub(1));
    let action = if round >= u64::from(count) {
        MotionAction::Move
    } else if round == 0 {
        MotionAction::Down
    } else {
        MotionAction::PointerDown
    };
    let index = if action == MotionAction::PointerDown {
        last
    } else {
        0
    };
    Motion {
        device,
        action,
        index,
        flags: 0,
        pointers: fingers(last, round),
    }
}

/// Makes a call and ignores its reply.
fn make(dispatcher: &mut Dispatcher, call: &Call) -> Result<(), AllocError> {
    match dispatcher.apply(call) {
        Ok(_) => Ok(()),
        Err(error) => Err(error),
    }
}

/// A motion comes.
fn hand_in(dispatcher: &mut Dispatcher, motion: Motion, now: Moment) -> Result<(), AllocError> {
    match dispatcher.notify(now, &Args::Motion(motion)) {
        Ok(_) => Ok(()),
        Err(error) => Err(error),
    }
}

/// What waits is dispatched.
fn pump(dispatcher: &mut Dispatcher, now: Moment) -> Result<(), AllocError> {
    match dispatcher.pump(now) {
        Ok(_) => Ok(()),
        Err(error) => Err(error),
    }
}

/// The number of the next message of a channel, which its owner takes.
fn receive(dispatcher: &mut Dispatcher, channel: u32) -> Result<Option<u64>, AllocError> {
    let seq = match dispatcher.next(channel) {
        Some(message) => message.seq,
        None => return Ok(None),
    };
    dispatcher.receive(channel)?;
    Ok(Some(seq))
}

/// The owner of a channel receives its next message and finishes it. Returns how many messages that were.
fn own(dispatcher: &mut Dispatcher, channel: u32, now: Moment) -> Result<u64, AllocError> {
    match receive(dispatcher, channel)? {
        Some(seq) => {
            let _ = dispatcher.finish(now, channel, seq)?;
            dispatcher.release(channel);
            Ok(1)
        }
        None => Ok(0),
    }
}

/// A motion comes, and each window that is sent something takes it.
fn round(
    dispatcher: &mut Dispatcher,
    motion: Motion,
    channels: u32,
    now: Moment,
) -> Result<u64, AllocError> {
    hand_in(dispatcher, motion, now)?;
    pump(dispatcher, now)?;
    let mut taken: u64 = 0;
    for channel in 1..=channels {
        taken = taken.saturating_add(own(dispatcher, channel, now)?);
    }
    Ok(taken)
}

/// A channel is opened on these terms.
fn open_one(dispatcher: &mut Dispatcher, terms: &Terms) -> Result<(), AllocError> {
    make(dispatcher, &Call::Open { terms: *terms })
}

/// So many channels are opened on these terms.
fn open(dispatcher: &mut Dispatcher, channels: u32, terms: &Terms) -> Result<(), AllocError> {
    for _ in 0..channels {
        open_one(dispatcher, terms)?;
    }
    Ok(())
}

/// So many channels are opened, and these windows are shown.
fn show(
    alloc: Global,
    dispatcher: &mut Dispatcher,
    channels: u32,
    numbers: &[u64],
) -> Result<(), AllocError> {
    if let Some(limit) = Limit::new(5_000_000) {
        let repeats = Some(Repeats::android());
        open(dispatcher, channels, &Terms { limit, repeats })?;
    }
    match windows(alloc, numbers) {
        Some(call) => make(dispatcher, &call),
        None => Ok(()),
    }
}

/// Some rounds of one device, one every millisecond. Returns how many messages were received.
fn gesture(
    dispatcher: &mut Dispatcher,
    device: DeviceId,
    channels: u32,
    count: u8,
    rounds: u64,
) -> Result<u64, AllocError> {
    let mut taken: u64 = 0;
    for i in 0..rounds {
        if let Some(now) = Moment::new(i.saturating_mul(1000)) {
            let got = round(dispatcher, motion(device, count, i), channels, now)?;
            taken = taken.saturating_add(got);
        }
    }
    Ok(taken)
}

/// Some rounds of the first device.
fn first_gesture(
    dispatcher: &mut Dispatcher,
    channels: u32,
    count: u8,
    rounds: u64,
) -> Result<u64, AllocError> {
    match DeviceId::new(1) {
        Some(device) => gesture(dispatcher, device, channels, count, rounds),
        None => Ok(0),
    }
}

/// Prints how long some rounds took.
fn print(
    rt: &HostRuntime,
    name: &str,
    rounds: u64,
    taken: u64,
    nanoseconds: u128,
) -> io::Result<()> {
    println!(rt; "{name} {rounds} rounds {taken} messages {nanoseconds} ns")
}

/// Prints how long some rounds take where these windows are shown.
fn time(
    rt: &HostRuntime,
    dispatcher: &mut Dispatcher,
    name: &str,
    channels: u32,
    count: u8,
    rounds: u64,
) -> io::Result<()> {
    let start = Instant::now(rt)?;
    let taken = first_gesture(dispatcher, channels, count, rounds)?;
    let took = start.elapsed(rt)?;
    print(rt, name, rounds, taken, took.as_nanos())
}

/// Prints how long some rounds of one finger over one window take.
fn time_one(
    rt: &HostRuntime,
    alloc: Global,
    dispatcher: &mut Dispatcher,
    rounds: u64,
) -> io::Result<()> {
    show(alloc, dispatcher, 1, ONE)?;
    time(rt, dispatcher, "one", 1, 1, rounds)
}

/// Prints how long some rounds of ten fingers over five windows and a spy take.
fn time_ten(
    rt: &HostRuntime,
    alloc: Global,
    dispatcher: &mut Dispatcher,
    rounds: u64,
) -> io::Result<()> {
    show(alloc, dispatcher, 6, SIX)?;
    time(rt, dispatcher, "ten", 6, 10, rounds)
}

/// Some rounds of one finger, over a dispatcher of their own.
fn measure_one(rt: &HostRuntime, alloc: Global, rounds: u64) -> io::Result<()> {
    match Dispatcher::new(alloc, &Displays::new()) {
        Ok(mut dispatcher) => time_one(rt, alloc, &mut dispatcher, rounds),
        Err(error) => Err(error.into()),
    }
}

/// Some rounds of ten fingers, over a dispatcher of their own.
fn measure_ten(rt: &HostRuntime, alloc: Global, rounds: u64) -> io::Result<()> {
    match Dispatcher::new(alloc, &Displays::new()) {
        Ok(mut dispatcher) => time_ten(rt, alloc, &mut dispatcher, rounds),
        Err(error) => Err(error.into()),
    }
}

/// Prints how long some rounds take, of one finger over one window, and of ten over five windows and a spy.
pub(crate) fn measure(rt: &HostRuntime, alloc: Global, rounds: u64) -> io::Result<()> {
    measure_one(rt, alloc, rounds)?;
    measure_ten(rt, alloc, rounds)
}
