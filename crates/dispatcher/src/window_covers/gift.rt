//! What lies over the windows that a motion gives a pointer.
ghost use Rattle.std.specs.Prelude.{◌≡◌, ◌==◌, None};
ghost use Rattle.window_snapshot.specs.Walls.{reaches};
ghost use Rattle.routing_rules.specs.Scene.{Scene};
ghost use Rattle.dispatcher.specs.WindowCovers.Covers.{IsFound, IsGiftOf};

use input_types::{DeviceId, Motion, Pixel};
use route_split::{Mark, given_windows};
use window_snapshot::{Reach, Snapshot, mask_less};

/// The windows that are given a pointer of a device, and which of them a window of another owner obscures there. Of the
/// others, those that some window of another owner overlaps.
#[derive(Clone, Copy, Debug)]
pub struct Gift {
    pub device: DeviceId,
    pub windows: u64,
    pub obscured: u64,
    pub partly: u64,
}

/// What lies over these windows at a position.
fn found(device: DeviceId, windows: u64, at: Pixel, shown: &Snapshot, reach: &Reach) -> Gift
    ensures device { result.device ≡ device }
    ensures windows { result.windows ≡ windows }
    ensures found { (s : Scene) → s.windows ≡ shown.now → s.reach device ≡ reaches reach.now → IsFound s at result }
{
    let obscured = shown.obscured(at.x, at.y, reach, windows);
    let partly = shown.overlapped(reach, mask_less(windows, obscured));
    Gift {
        device,
        windows,
        obscured,
        partly,
    }
}

/// What lies over the windows to which a motion with this mark gives its pointer; None if it gives nothing. `reach`
/// says which windows the device can reach.
pub fn gift_of(mark: &Mark, motion: &Motion, shown: &Snapshot, reach: &Reach) -> Option<Gift>
    ensures { (s : Scene) → s.windows ≡ shown.now → s.reach motion.now.device ≡ reaches reach.now
        → IsGiftOf s mark.now motion.now result }
{
    let windows = given_windows(mark, motion.device);
    if windows == 0 {
        return None;
    }
    match motion.pointers.get(usize::from(motion.index)) {
        Some(pointer) => Some(found(motion.device, windows, pointer.at, shown, reach)),
        None => None,
    }
}
