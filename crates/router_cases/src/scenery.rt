//! A few windows, and what happens to them and to two devices as chance wants.

use crate::chance::Chance;
use crate::fingers::Fingers;
use bitflags::Flags;
use input_types::{DeviceId, DisplayId};
use route_plain::Turn;
use std::alloc::Global;
use std::test::Fail;
use touch_region::{Rect, Region};
use window_snapshot::{Occlusion, Percent, Snapshot, Window, WindowFlags, mask_with};

/// A window of the whole width: its channel, its upper and lower edge, and its flags.
type Band = (u32, i32, i32, WindowFlags);

fn window(alloc: Global, band: &Band) -> Result<Window, Fail> {
    let (channel, top, bottom, flags) = *band;
    let frame = Rect {
        left: 0,
        top,
        right: 1080,
        bottom,
    };
    let region = Region::new(vec![in alloc; frame]?)?;
    Ok(Window {
        channel,
        display: DisplayId::zero(),
        frame,
        region,
        flags,
        owner: 0,
        opacity: Percent::whole(),
        occlusion: Occlusion::Block,
    })
}

fn snapshot(alloc: Global, bands: &[Band]) -> Result<Snapshot, Fail> {
    let mut windows = Vec::new(alloc);
    for band in bands {
        windows.push(window(alloc, band)?)?;
    }
    Ok(Snapshot::new(windows)?)
}

/// A spy over the upper half, a small window that watches, a slippery strip, one that prevents splitting, and an app.
pub(crate) fn first_windows(alloc: Global) -> Result<Snapshot, Fail> {
    snapshot(
        alloc,
        &[
            (1, 0, 1200, WindowFlags::SPY),
            (2, 0, 100, WindowFlags::WATCH_OUTSIDE_TOUCH),
            (3, 100, 800, WindowFlags::SLIPPERY),
            (4, 800, 1200, WindowFlags::PREVENT_SPLITTING),
            (5, 1200, 2400, WindowFlags::from_bits_retain(0)),
        ],
    )
}

/// The spy has all of the display, a wall and the plain strip are behind it, the app is slippery, and a further spy is
/// before it.
pub(crate) fn second_windows(alloc: Global) -> Result<Snapshot, Fail> {
    snapshot(
        alloc,
        &[
            (1, 0, 2400, WindowFlags::SPY),
            (65, 600, 1000, WindowFlags::PREVENT_SPLITTING),
            (3, 0, 1200, WindowFlags::from_bits_retain(0)),
            (64, 0, 2400, WindowFlags::SPY),
            (5, 1200, 2400, WindowFlags::SLIPPERY),
        ],
    )
}

/// Two devices, the channels, and which of the two snapshots is shown.
#[derive(Drop)]
pub(crate) struct Scenery {
    chance: Chance,
    first: Fingers,
    second: Fingers,
    pub(crate) shows_second: bool,
    pub(crate) live: u64,
    pub(crate) able: u64,
}

impl Scenery {
    pub(crate) fn new(seed: u32) -> Result<Scenery, Fail> {
        Ok(Scenery {
            chance: Chance::new(seed),
            first: Fingers::none(DeviceId::new(1).ok_or("a device")?),
            second: Fingers::none(DeviceId::new(8).ok_or("a device")?),
            shows_second: false,
            live: u64::MAX,
            able: u64::MAX,
        })
    }

    /// The next turn: mostly a motion of one of the devices.
    pub(crate) fn next(&mut self) -> Result<Turn, Fail> {
        match self.chance.below(40) {
            0 | 1 => {
                self.shows_second = !self.shows_second;
                Ok(Turn::Windows)
            }
            2 => Ok(self.mute()),
            3 => Ok(self.forget()),
            4..17 => turn_of(&mut self.second, &mut self.chance),
            _ => turn_of(&mut self.first, &mut self.chance),
        }
    }

    /// A channel is found unresponsive.
    fn mute(&mut self) -> Turn {
        let channels = mask_with(0, 1 + self.chance.below(6));
        self.able &= !channels;
        Turn::Mute { channels }
    }

    /// A channel is removed.
    fn forget(&mut self) -> Turn {
        let channel = 1 + self.chance.below(6);
        self.live &= !mask_with(0, channel);
        self.able &= self.live;
        Turn::Forget { channel }
    }
}

/// A turn of a device: it begins anew, one of the spies pilfers it, or its fingers do something.
fn turn_of(fingers: &mut Fingers, chance: &mut Chance) -> Result<Turn, Fail> {
    let device = fingers.device;
    match chance.below(30) {
        0 => {
            fingers.forget();
            Ok(Turn::Reset(device))
        }
        1 | 2 => Ok(Turn::Pilfer { channel: 1, device }),
        3 => Ok(Turn::Pilfer {
            channel: 64,
            device,
        }),
        _ => Ok(Turn::Pointers(fingers.next(chance)?)),
    }
}
