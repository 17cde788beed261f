//! The service at the start: a panel, and two clients with their windows.
use device_reader::touch_mapper::Cook;
use dispatch_calls::Terms;
use input_types::{Axis, DeviceId, DisplayId, Displays, Limit, Moment, Rotation};
use key_repeat::Repeats;
use live_input::{Client, ClientWindow, Live, WindowInfo};
use std::alloc::Global;
use touch_region::{Rect, Region};
use window_snapshot::{Occlusion, Percent};

/// A service with one panel, and the client that never finishes a message.
#[derive(Drop)]
pub(crate) struct Started {
    pub alloc: Global,
    pub live: Live,
    pub panel: DeviceId,
    pub idle: Client,
}

/// The window of a client, between a left and a right edge.
fn window(alloc: Global, client: Client, left: i32, right: i32) -> Option<ClientWindow> {
    let frame = Rect {
        left,
        top: 0,
        right,
        bottom: 2400,
    };
    let mut rects = Vec::new(alloc);
    rects.push(frame).ok()?;
    Some(ClientWindow {
        client: Some(client),
        info: WindowInfo {
            display: DisplayId::zero(),
            frame,
            region: Region::new(rects).ok()?,
            flags: bitflags::Flags::from_bits_retain(0),
            owner: 0,
            opacity: Percent::whole(),
            occlusion: Occlusion::Block,
        },
    })
}

/// A panel whose positions are the pixels of its display.
fn plug_in(live: &mut Live) -> Option<DeviceId> {
    let x = Axis { min: 0, max: 1079 };
    let y = Axis { min: 0, max: 2399 };
    let cook = Cook::new(x, y, 1080, 2400, Rotation::R0).ok()?;
    live.add_touch(DisplayId::zero(), 10, cook).ok()
}

/// Shows the windows of both clients, side by side.
fn show(alloc: Global, live: &mut Live, left: Client, right: Client) -> Option<()> {
    let mut windows = Vec::new(alloc);
    windows.push(window(alloc, left, 0, 540)?).ok()?;
    windows.push(window(alloc, right, 540, 1080)?).ok()?;
    live.windows(Moment::zero(), windows).ok()
}

/// Plugs in the panel, opens two clients and shows their windows. Returns the panel and the right client.
fn set_up(alloc: Global, live: &mut Live) -> Option<(DeviceId, Client)> {
    let panel = plug_in(live)?;
    let left = live.open().ok()?;
    let right = live.open().ok()?;
    show(alloc, live, left, right)?;
    Some((panel, right))
}

/// A service with a panel, and two clients with their windows.
pub(crate) fn start(alloc: Global) -> Option<Started> {
    let terms = Terms {
        limit: Limit::new(5_000_000)?,
        repeats: Some(Repeats::android()),
    };
    let mut live = Live::new(alloc, terms, &Displays::new()).ok()?;
    match set_up(alloc, &mut live) {
        Some((panel, idle)) => Some(Started {
            alloc,
            live,
            panel,
            idle,
        }),
        None => None,
    }
}
