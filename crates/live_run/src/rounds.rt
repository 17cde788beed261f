//! Rounds of a gesture: a packet of the panel, and what each window takes of it.
use crate::service::{Service, window};
use input_types::Moment;
use live_input::Client;
use std::alloc::Global;
use touch_region::Rect;

/// The time of a round: one every millisecond.
fn moment(round: u64) -> Option<Moment> {
    Moment::new(round.saturating_mul(1000))
}

/// Where a finger is in a round: two of ten fingers on each of five rows.
fn at(finger: u8, round: u64) -> (i32, i32) {
    let shift = (round % 1080) as i32;
    let column = i32::from(finger % 2);
    let row = i32::from(finger / 2);
    let x = column * 540 + (row * 50 + shift * 7) % 540;
    let y = row * 480 + 110 + shift * 11 % 90;
    (x, y)
}

/// The whole display.
fn whole() -> Rect {
    Rect {
        left: 0,
        top: 0,
        right: 1080,
        bottom: 2400,
    }
}

/// The row of the display with this number, of five from the top.
fn row(number: u8) -> Rect {
    let top = i32::from(number) * 480;
    Rect {
        left: 0,
        top,
        right: 1080,
        bottom: top + 480,
    }
}

/// Where a window is: a single one has the whole display, and of several each has a row.
fn frame(number: u8, count: u8) -> Rect {
    if count == 1 { whole() } else { row(number) }
}

/// Opens this many clients, each with its window.
fn open(service: &mut Service, count: u8) -> Option<Vec<Client>> {
    let mut clients = Vec::new(service.alloc);
    let mut windows = Vec::new(service.alloc);
    for number in 0..count {
        let client = service.live.open().ok()?;
        clients.push(client).ok()?;
        let frame = frame(number, count);
        windows.push(window(service.alloc, client, frame)?).ok()?;
    }
    service.live.windows(Moment::zero(), windows).ok()?;
    Some(clients)
}

/// Puts this many fingers down, in one packet.
fn down(service: &mut Service, fingers: u8) -> Option<()> {
    let now = Moment::zero();
    for finger in 0..fingers {
        let (x, y) = at(finger, 0);
        service.down(now, finger, i32::from(finger), x, y)?;
    }
    service.report(now)
}

/// Moves the finger of the current slot, with three events.
fn move_one(service: &mut Service, now: Moment, round: u64) -> Option<()> {
    let (x, y) = at(0, round);
    service.at(now, x, y)?;
    service.report(now)
}

/// Moves ten fingers, with 31 events.
fn move_ten(service: &mut Service, now: Moment, round: u64) -> Option<()> {
    for finger in 0..10 {
        let (x, y) = at(finger, round);
        service.slot(now, finger)?;
        service.at(now, x, y)?;
    }
    service.report(now)
}

/// Each client receives all its messages. Returns how many there were.
fn take_all(service: &mut Service, clients: &[Client]) -> Option<u64> {
    let mut taken: u64 = 0;
    for client in clients {
        let more = service.take_all(Moment::zero(), *client, true)?;
        taken = taken.saturating_add(more);
    }
    Some(taken)
}

/// Each client receives a message and finishes it. Returns how many messages there were.
fn take_each(service: &mut Service, now: Moment, clients: &[Client]) -> Option<u64> {
    let mut taken: u64 = 0;
    for client in clients {
        let more = service.take_one(now, *client)?;
        taken = taken.saturating_add(more);
    }
    Some(taken)
}

/// A round of one finger.
fn round_one(service: &mut Service, clients: &[Client], round: u64) -> Option<u64> {
    let now = moment(round)?;
    move_one(service, now, round)?;
    take_each(service, now, clients)
}

/// A round of ten fingers.
fn round_ten(service: &mut Service, clients: &[Client], round: u64) -> Option<u64> {
    let now = moment(round)?;
    move_ten(service, now, round)?;
    take_each(service, now, clients)
}

/// Some rounds of one finger over one window, after the finger went down.
fn rounds_of_one(service: &mut Service, rounds: u64) -> Option<u64> {
    let clients = open(service, 1)?;
    down(service, 1)?;
    let mut taken = take_all(service, &clients)?;
    for round in 1..=rounds {
        let more = round_one(service, &clients, round)?;
        taken = taken.saturating_add(more);
    }
    Some(taken)
}

/// Some rounds of ten fingers over five windows, after the fingers went down.
fn rounds_of_ten(service: &mut Service, rounds: u64) -> Option<u64> {
    let clients = open(service, 5)?;
    down(service, 10)?;
    let mut taken = take_all(service, &clients)?;
    for round in 1..=rounds {
        let more = round_ten(service, &clients, round)?;
        taken = taken.saturating_add(more);
    }
    Some(taken)
}

/// How many messages clients receive in some rounds of one finger over one window, including those of its going down.
pub(crate) fn one(alloc: Global, rounds: u64) -> Option<u64> {
    match Service::new(alloc) {
        Some(mut service) => rounds_of_one(&mut service, rounds),
        None => None,
    }
}

/// How many messages clients receive in some rounds of ten fingers over five windows, including those of their going
/// down.
pub(crate) fn ten(alloc: Global, rounds: u64) -> Option<u64> {
    match Service::new(alloc) {
        Some(mut service) => rounds_of_ten(&mut service, rounds),
        None => None,
    }
}
