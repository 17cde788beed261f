//! A service with a panel: packets go in, and clients take what they are sent.
use device_reader::touch_mapper::Cook;
use dispatch_calls::Terms;
use input_types::{Axis, DeviceId, DisplayId, Displays, Limit, Message, Moment, Rotation};
use key_repeat::Repeats;
use live_input::{Client, ClientWindow, Limited, WindowInfo};
use raw_events::codes::{
    ABS_MT_POSITION_X, ABS_MT_POSITION_Y, ABS_MT_SLOT, ABS_MT_TRACKING_ID, EV_ABS, EV_SYN,
    SYN_REPORT,
};
use std::alloc::{AllocError, Global};
use touch_region::{Rect, Region};
use window_snapshot::{Occlusion, Percent};

/// A service with one panel, whose positions are the pixels of its display.
#[derive(Drop)]
pub(crate) struct Service {
    pub alloc: Global,
    pub live: Limited,
    pub panel: DeviceId,
    /// How many events were handed in.
    pub events: u64,
}

/// Plugs in a panel with ten slots.
fn plug_in(live: &mut Limited) -> Option<DeviceId> {
    let x = Axis { min: 0, max: 1079 };
    let y = Axis { min: 0, max: 2399 };
    let cook = Cook::new(x, y, 1080, 2400, Rotation::R0).ok()?;
    live.add_touch(DisplayId::zero(), 10, cook).ok()
}

/// A service with a panel, if it could be plugged in.
fn with_panel(alloc: Global, mut live: Limited) -> Option<Service> {
    match plug_in(&mut live) {
        Some(panel) => Some(Service {
            alloc,
            live,
            panel,
            events: 0,
        }),
        None => None,
    }
}

/// The window of a client, which can be touched in its whole frame.
pub(crate) fn window(alloc: Global, client: Client, frame: Rect) -> Option<ClientWindow> {
    let mut rects = Vec::new(alloc);
    rects.push(frame).ok()?;
    Some(ClientWindow {
        client: Some(client),
        info: WindowInfo {
            display: DisplayId::zero(),
            frame,
            region: Region::new(rects).ok()?,
            flags: bitflags::Flags::from_bits_retain(0),
            owner: 0,
            opacity: Percent::whole(),
            occlusion: Occlusion::Block,
        },
    })
}

/// The number of a message.
fn seq_of(message: &Message) -> Option<u64> {
    Some(message.seq)
}

/// Each call returns None if the service refuses it.
impl Service {
    /// A service without clients. A client may leave a message unfinished for five seconds.
    pub(crate) fn new(alloc: Global) -> Option<Service> {
        let terms = Terms {
            limit: Limit::new(5_000_000)?,
            repeats: Some(Repeats::android()),
        };
        match Limited::new(alloc, terms, &Displays::new()) {
            Ok(live) => with_panel(alloc, live),
            Err(_) => None,
        }
    }

    /// Hands in an event of the panel.
    fn event(&mut self, now: Moment, kind: u16, code: u16, value: i32) -> Option<()> {
        self.events = self.events.saturating_add(1);
        self.live.event(now, self.panel, kind, code, value).ok()
    }

    /// Chooses the slot that the next events belong to.
    pub(crate) fn slot(&mut self, now: Moment, slot: u8) -> Option<()> {
        self.event(now, EV_ABS, ABS_MT_SLOT, i32::from(slot))
    }

    /// Puts a finger with this tracking id down in a slot, at a position.
    pub(crate) fn down(&mut self, now: Moment, slot: u8, id: i32, x: i32, y: i32) -> Option<()> {
        self.slot(now, slot)?;
        self.event(now, EV_ABS, ABS_MT_TRACKING_ID, id)?;
        self.at(now, x, y)
    }

    /// Lifts the finger of the slot.
    pub(crate) fn up(&mut self, now: Moment) -> Option<()> {
        self.event(now, EV_ABS, ABS_MT_TRACKING_ID, -1)
    }

    /// Moves the finger of the slot to a position.
    pub(crate) fn at(&mut self, now: Moment, x: i32, y: i32) -> Option<()> {
        self.event(now, EV_ABS, ABS_MT_POSITION_X, x)?;
        self.event(now, EV_ABS, ABS_MT_POSITION_Y, y)
    }

    /// Ends the packet.
    pub(crate) fn report(&mut self, now: Moment) -> Option<()> {
        self.event(now, EV_SYN, SYN_REPORT, 0)
    }

    /// A client receives its next message. Returns its number, if there is one.
    fn take(&mut self, client: Client) -> Result<Option<u64>, AllocError> {
        match self.live.next(client) {
            Ok(Some(message)) => Ok(seq_of(&message)),
            Ok(None) => Ok(None),
            Err(error) => Err(error),
        }
    }

    /// A client receives its next message and finishes it. Returns how many there were.
    pub(crate) fn take_one(&mut self, now: Moment, client: Client) -> Option<u64> {
        match self.take(client).ok()? {
            Some(seq) => {
                self.live.finish(now, client, seq).ok()?;
                Some(1)
            }
            None => Some(0),
        }
    }

    /// A client receives all its messages, and finishes them if it is one that finishes. Returns how many there were.
    pub(crate) fn take_all(&mut self, now: Moment, client: Client, finishes: bool) -> Option<u64> {
        let mut taken: u64 = 0;
        for _ in 0..u64::MAX {
            let Some(seq) = self.take(client).ok()? else {
                return Some(taken);
            };
            if finishes {
                self.live.finish(now, client, seq).ok()?;
            }
            taken = taken.saturating_add(1);
        }
        None
    }
}
