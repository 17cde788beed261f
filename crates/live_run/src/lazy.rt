//! Clients that do not receive what they are sent: one that receives nothing, and one that receives too little.
use crate::service::{Service, window};
use input_types::{DisplayId, Moment};
use live_input::Client;
use std::alloc::Global;
use touch_region::Rect;

/// How many messages a client may leave unreceived.
const MOST: u64 = 1_000;

/// The time of a round, in microseconds.
const PERIOD: u64 = 8_000;

/// Every so many rounds the second client receives, which is every 4.9 seconds: so it is never late.
const SELDOM: u64 = 612;

/// How many messages a client was sent, and how often it was reported.
#[derive(Clone, Copy)]
pub(crate) struct Lazy {
    pub sent: u64,
    pub named: u64,
}

/// The time of a round.
fn moment(round: u64) -> Option<Moment> {
    Moment::new(round.saturating_mul(PERIOD))
}

/// Opens a client with the whole display.
fn settle(service: &mut Service) -> Option<Client> {
    let screen = Rect {
        left: 0,
        top: 0,
        right: 1080,
        bottom: 2400,
    };
    let client = service.live.open().ok()?;
    let mut windows = Vec::new(service.alloc);
    windows.push(window(service.alloc, client, screen)?).ok()?;
    service.live.windows(Moment::zero(), windows).ok()?;
    service.live.set_most(MOST);
    Some(client)
}

/// Runs what is due. Returns how many clients were reported.
fn advance(service: &mut Service, now: Moment) -> Option<u64> {
    let late = service.live.advance(now).ok()?;
    Some(u64::from(late.count_ones()))
}

/// The focus comes to the client in one round, and goes in the next.
fn refocus(service: &mut Service, now: Moment, client: Client, round: u64) -> Option<()> {
    let wanted = if round % 2 == 1 { Some(client) } else { None };
    service.live.focus(now, DisplayId::zero(), wanted).ok()
}

/// A finger goes down, moves in eight rounds, and goes up again.
fn gesture(service: &mut Service, now: Moment, round: u64) -> Option<()> {
    let shift = (round % 1000) as i32;
    match round % 10 {
        1 => service.down(now, 0, shift, shift, shift)?,
        0 => service.up(now)?,
        _ => service.at(now, shift, shift)?,
    }
    service.report(now)
}

/// The client receives 64 messages and finishes them. Returns how many there were.
fn take_some(service: &mut Service, now: Moment, client: Client) -> Option<u64> {
    let mut taken: u64 = 0;
    for _ in 0..64 {
        let more = service.take_one(now, client)?;
        taken = taken.saturating_add(more);
    }
    Some(taken)
}

/// What was sent in some rounds to a client that receives nothing before their end.
fn mute_rounds(service: &mut Service, rounds: u64) -> Option<Lazy> {
    let client = settle(service)?;
    let mut named: u64 = 0;
    for round in 1..=rounds {
        let now = moment(round)?;
        let late = advance(service, now)?;
        named = named.saturating_add(late);
        refocus(service, now, client, round)?;
    }
    let sent = service.take_all(moment(rounds)?, client, true)?;
    Some(Lazy { sent, named })
}

/// What was sent in some rounds to a client that receives 64 messages every 4.9 seconds, and the rest at their end.
fn slow_rounds(service: &mut Service, rounds: u64) -> Option<Lazy> {
    let client = settle(service)?;
    let mut sent: u64 = 0;
    let mut named: u64 = 0;
    for round in 1..=rounds {
        let now = moment(round)?;
        let late = advance(service, now)?;
        named = named.saturating_add(late);
        gesture(service, now, round)?;
        if round % SELDOM == 0 {
            let more = take_some(service, now, client)?;
            sent = sent.saturating_add(more);
        }
    }
    let rest = service.take_all(moment(rounds)?, client, true)?;
    sent = sent.saturating_add(rest);
    Some(Lazy { sent, named })
}

/// A client that receives nothing, while the focus comes and goes.
pub(crate) fn mute(alloc: Global, rounds: u64) -> Option<Lazy> {
    match Service::new(alloc) {
        Some(mut service) => mute_rounds(&mut service, rounds),
        None => None,
    }
}

/// A client that receives less than it is sent, in gestures of ten rounds.
pub(crate) fn slow(alloc: Global, rounds: u64) -> Option<Lazy> {
    match Service::new(alloc) {
        Some(mut service) => slow_rounds(&mut service, rounds),
        None => None,
    }
}
