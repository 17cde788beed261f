//! By which windows of other owners a window is blocked.
ghost use Rattle.std.specs.Prelude.{◌≡◌, ◌&&◌, ℕ, filter};
ghost use Rattle.std.specs.List.{list_any};
ghost use Rattle.window_snapshot.specs.Mask.{is_channel, mask_has};
ghost use Rattle.window_snapshot.specs.MaskOf.{mask_of};
ghost use Rattle.window_snapshot.specs.Blocking.{blockers, blocking, decisive, is_solid, is_walled};
ghost use Rattle.window_snapshot.specs.Walls.{is_wall, reaches};

use crate::mask::mask_with;
use crate::occluded::{blocks, in_front_of};
use crate::reach::Reach;
use crate::snapshot::{Snapshot, window_in};
use crate::window::Window;

impl Snapshot {
    /// The windows that block the window of a channel at a point of the display: those that no touch may go through; if
    /// there are none, those whose opacity decides. `reach` says which windows a motion can reach. A wall has no
    /// channel, so it is in no mask.
    pub fn blockers(&self, x: i32, y: i32, reach: &Reach, channel: u32) -> u64
        ensures { (c : ℕ) → mask_has result c ≡ (is_channel c && blockers self.now (reaches reach.now) x y channel c) }
    {
        let windows = self.windows();
        let front = in_front_of(windows, channel);
        match window_in(windows, channel) {
            Some(window) => decisive(front, x, y, reach, window),
            None => 0,
        }
    }

    /// Whether a wall is one of the windows that block the window of a channel at a point of the display.
    pub fn is_walled(&self, x: i32, y: i32, reach: &Reach, channel: u32) -> bool
        ensures { result ≡ is_walled self.now (reaches reach.now) x y channel }
    {
        let windows = self.windows();
        let front = in_front_of(windows, channel);
        match window_in(windows, channel) {
            Some(window) => any_wall(front, x, y, reach, window),
            None => false,
        }
    }
}

/// Whether a wall is one of the decisive windows.
fn any_wall(front: &[Window], x: i32, y: i32, reach: &Reach, window: &Window) -> bool
    ensures { result ≡ list_any is_wall (decisive (blocking (reaches reach.now) front.now window.now x y)) }
{
    if any_solid(front, x, y, reach, window) {
        solid_wall(front, x, y, reach, window)
    } else {
        blocking_wall(front, x, y, reach, window)
    }
}

/// Whether a wall is one of those windows that no touch may go through.
fn solid_wall(front: &[Window], x: i32, y: i32, reach: &Reach, window: &Window) -> bool
    ensures { result ≡ list_any is_wall (filter is_solid (blocking (reaches reach.now) front.now window.now x y)) }
{
    front
        .iter()
        .filter(|other| blocks(front, x, y, reach, window, other))
        .filter(|other| other.occlusion.is_blocking())
        .any(|other| other.is_wall())
}

/// Whether a wall is one of all of them.
fn blocking_wall(front: &[Window], x: i32, y: i32, reach: &Reach, window: &Window) -> bool
    ensures { result ≡ list_any is_wall (blocking (reaches reach.now) front.now window.now x y) }
{
    front
        .iter()
        .filter(|other| blocks(front, x, y, reach, window, other))
        .any(|other| other.is_wall())
}

/// The mask of the decisive ones of the windows in front of a window that block it.
fn decisive(front: &[Window], x: i32, y: i32, reach: &Reach, window: &Window) -> u64
    ensures { result ≡ mask_of (decisive (blocking (reaches reach.now) front.now window.now x y)) }
{
    if any_solid(front, x, y, reach, window) {
        solid(front, x, y, reach, window)
    } else {
        blocking(front, x, y, reach, window)
    }
}

/// Whether a touch may go through none of one of them.
fn any_solid(front: &[Window], x: i32, y: i32, reach: &Reach, window: &Window) -> bool
    ensures { result ≡ list_any is_solid (blocking (reaches reach.now) front.now window.now x y) }
{
    front
        .iter()
        .filter(|other| blocks(front, x, y, reach, window, other))
        .any(|other| other.occlusion.is_blocking())
}

/// The mask of those windows that no touch may go through.
fn solid(front: &[Window], x: i32, y: i32, reach: &Reach, window: &Window) -> u64
    ensures { result ≡ mask_of (filter is_solid (blocking (reaches reach.now) front.now window.now x y)) }
{
    front
        .iter()
        .filter(|other| blocks(front, x, y, reach, window, other))
        .filter(|other| other.occlusion.is_blocking())
        .fold(0, |mask, other| mask_with(mask, other.channel))
}

/// The mask of all of them.
fn blocking(front: &[Window], x: i32, y: i32, reach: &Reach, window: &Window) -> u64
    ensures { result ≡ mask_of (blocking (reaches reach.now) front.now window.now x y) }
{
    front
        .iter()
        .filter(|other| blocks(front, x, y, reach, window, other))
        .fold(0, |mask, other| mask_with(mask, other.channel))
}
