//! Clients that come and go, and one that stays and never finishes a message.
use crate::service::{Service, window};
use input_types::Moment;
use live_input::Client;
use std::alloc::Global;
use touch_region::Rect;

/// The time between two packets, in microseconds.
const PERIOD: u64 = 8_000;

/// How often the finger of a guest moves. With the five events of its down and the two of its up, a visit has 10,000
/// events.
const MOVES: u64 = 3_331;

/// A service on which one client stays. It has the left half of the display, with a finger held on it. The current
/// guest has the right half.
#[derive(Drop)]
pub(crate) struct Guests {
    service: Service,
    idle: Client,
    /// How many packets there were so far.
    packets: u64,
    /// How many guests came so far.
    pub came: u64,
    /// How many messages guests received and finished.
    pub finished: u64,
    /// How many messages the client that stays received.
    pub kept: u64,
    /// How often a client was reported unresponsive.
    pub named: u64,
}

/// The part of the display between a left and a right edge.
fn part(left: i32, right: i32) -> Rect {
    Rect {
        left,
        top: 0,
        right,
        bottom: 2400,
    }
}

/// Shows the window of the client that stays, and that of a guest if there is one.
fn show(service: &mut Service, now: Moment, idle: Client, guest: Option<Client>) -> Option<()> {
    let mut windows = Vec::new(service.alloc);
    windows
        .push(window(service.alloc, idle, part(0, 540))?)
        .ok()?;
    if let Some(guest) = guest {
        windows
            .push(window(service.alloc, guest, part(540, 1080))?)
            .ok()?;
    }
    service.live.windows(now, windows).ok()
}

/// Opens a client with the left half of the display, and puts a finger on it.
fn settle(service: &mut Service) -> Option<Client> {
    let now = Moment::zero();
    let idle = service.live.open().ok()?;
    show(service, now, idle, None)?;
    service.down(now, 0, 0, 100, 200)?;
    service.report(now)?;
    Some(idle)
}

/// The guests of a service on which this client stays.
fn held(service: Service, idle: Client) -> Guests {
    Guests {
        service,
        idle,
        packets: 0,
        came: 0,
        finished: 0,
        kept: 0,
        named: 0,
    }
}

/// The guests of a service on which a client stays, if no call for it was refused.
fn settled(mut service: Service) -> Option<Guests> {
    match settle(&mut service) {
        Some(idle) => Some(held(service, idle)),
        None => None,
    }
}

impl Guests {
    /// The guests of a new service: a client stays on it, with a finger down on its window.
    pub(crate) fn new(alloc: Global) -> Option<Guests> {
        match Service::new(alloc) {
            Some(service) => settled(service),
            None => None,
        }
    }

    /// How many events were handed in.
    pub(crate) fn events(&self) -> u64 {
        self.service.events
    }

    /// Advances the clock to the next packet, and runs what is due up to then.
    fn advance(&mut self) -> Option<Moment> {
        self.packets = self.packets.saturating_add(1);
        let now = Moment::new(self.packets.saturating_mul(PERIOD))?;
        let late = self.service.live.advance(now).ok()?;
        self.named = self.named.saturating_add(u64::from(late.count_ones()));
        Some(now)
    }

    /// Both clients receive what they were sent, and the guest finishes it.
    fn take_all(&mut self, now: Moment, guest: Client) -> Option<()> {
        let finished = self.service.take_all(now, guest, true)?;
        self.finished = self.finished.saturating_add(finished);
        let kept = self.service.take_all(now, self.idle, false)?;
        self.kept = self.kept.saturating_add(kept);
        Some(())
    }

    /// Opens a guest, and puts a finger on its window.
    fn come(&mut self) -> Option<Client> {
        let now = self.advance()?;
        let guest = self.service.live.open().ok()?;
        show(&mut self.service, now, self.idle, Some(guest))?;
        let id = 1 + (self.came % 60_000) as i32;
        self.came = self.came.saturating_add(1);
        self.service.down(now, 1, id, 600, 200)?;
        self.service.report(now)?;
        self.take_all(now, guest)?;
        Some(guest)
    }

    /// Moves the finger of the guest.
    fn step(&mut self, guest: Client) -> Option<()> {
        let now = self.advance()?;
        let shift = (self.packets % 400) as i32;
        self.service.at(now, 600 + shift, 200 + shift)?;
        self.service.report(now)?;
        self.take_all(now, guest)
    }

    /// Closes the guest, and then lifts the finger that was on its window.
    fn go(&mut self, guest: Client) -> Option<()> {
        let now = self.advance()?;
        self.service.live.close(now, guest).ok()?;
        self.service.up(now)?;
        self.service.report(now)?;
        self.take_all(now, guest)
    }

    /// One visit: a guest comes, gets 10,000 events, and goes.
    fn visit(&mut self) -> Option<()> {
        let guest = self.come()?;
        for _ in 0..MOVES {
            self.step(guest)?;
        }
        self.go(guest)
    }

    /// This many guests come and go, one after another.
    pub(crate) fn visits(&mut self, count: u64) -> Option<()> {
        for _ in 0..count {
            self.visit()?;
        }
        Some(())
    }
}
