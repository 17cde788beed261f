//! Which windows of a snapshot lie over windows of other owners, and which of those block them.
ghost use Rattle.std.specs.Prelude.{◌≡◌, ◌≤◌, ℕ, ◌&&◌, ◌==◌, filter, fold, nat_lt};
ghost use Rattle.std.specs.List.{list_any, before_first};
ghost use Rattle.window_snapshot.specs.Mask.{mask_has};
ghost use Rattle.window_snapshot.specs.MaskOf.{mask_of};
ghost use Rattle.window_snapshot.specs.Opaque.{is_dimming};
ghost use Rattle.window_snapshot.specs.Walls.{reaches};
ghost use Rattle.window_snapshot.specs.Occlusion.{is_absent, may_obscure, obscures, stretches_meet, rects_meet, overlaps, dimmed, clearness, blocks, in_front_of, is_blocked, is_obscured, is_overlapped, is_blocked_at, is_obscured_at, is_overlapped_on};

use crate::mask::{mask_has, mask_with};
use crate::occlusion::Percent;
use crate::reach::Reach;
use crate::snapshot::{Snapshot, place_in};
use crate::window::Window;
use touch_region::Rect;

/// The parts of light before the first window takes some.
const LIGHT: u32 = 1_000_000;

/// The parts of light that leave a window to be seen, a fifth of them.
const CLEAR: u32 = 200_000;

impl Snapshot {
    /// Of the windows of the mask `among`, those that are blocked at a point of the display: a touch there comes
    /// through a window of another owner, which a motion can reach, that may not be touched through, or
    /// through windows of one other owner whose opacity decides and which together hide more than 80 per cent. Frames
    /// decide, not regions.
    pub fn blocked(&self, x: i32, y: i32, reach: &Reach, among: u64) -> u64
        ensures { (c : ℕ) → mask_has result c ≡ (mask_has among c && is_blocked_at self.now (reaches reach.now) x y c) }
    {
        blocked_mask(self.windows(), x, y, reach, among)
    }

    /// Of the windows of the mask `among`, those that a window of another owner, which a motion can reach,
    /// obscures at a point of the display.
    pub fn obscured(&self, x: i32, y: i32, reach: &Reach, among: u64) -> u64
        ensures { (c : ℕ)
            → mask_has result c ≡ (mask_has among c && is_obscured_at self.now (reaches reach.now) x y c) }
    {
        obscured_mask(self.windows(), x, y, reach, among)
    }

    /// Of the windows of the mask `among`, those whose frames have a point in common with that of a window of another
    /// owner in front of them, which a motion can reach.
    pub fn overlapped(&self, reach: &Reach, among: u64) -> u64
        ensures { (c : ℕ) → mask_has result c ≡ (mask_has among c && is_overlapped_on self.now (reaches reach.now) c) }
    {
        overlapped_mask(self.windows(), reach, among)
    }
}

/// The mask of those of these windows that are in a mask and blocked.
fn blocked_mask(windows: &[Window], x: i32, y: i32, reach: &Reach, among: u64) -> u64
    ensures { result
        ≡ mask_of (filter
        (λ v. mask_has among v.channel && is_blocked windows.now (reaches reach.now) x y v) windows.now) }
{
    windows
        .iter()
        .filter(|window| mask_has(among, window.channel)
            && is_blocked(windows, x, y, reach, window))
        .fold(0, |mask, window| mask_with(mask, window.channel))
}

/// The mask of those of these windows that are in a mask and obscured.
fn obscured_mask(windows: &[Window], x: i32, y: i32, reach: &Reach, among: u64) -> u64
    ensures { result ≡ mask_of (filter
        (λ v. mask_has among v.channel && is_obscured windows.now (reaches reach.now) x y v) windows.now) }
{
    windows
        .iter()
        .filter(|window| mask_has(among, window.channel)
            && is_obscured(windows, x, y, reach, window))
        .fold(0, |mask, window| mask_with(mask, window.channel))
}

/// The mask of those of these windows that are in a mask and overlapped.
fn overlapped_mask(windows: &[Window], reach: &Reach, among: u64) -> u64
    ensures { result
        ≡ mask_of (filter
        (λ v. mask_has among v.channel && is_overlapped windows.now (reaches reach.now) v) windows.now) }
{
    windows
        .iter()
        .filter(|window| mask_has(among, window.channel) && is_overlapped(windows, reach, window))
        .fold(0, |mask, window| mask_with(mask, window.channel))
}

/// Whether a window is blocked.
fn is_blocked(windows: &[Window], x: i32, y: i32, reach: &Reach, window: &Window) -> bool
    ensures { result ≡ is_blocked windows.now (reaches reach.now) x y window.now }
{
    let front = in_front_of(windows, window.channel);
    any_blocks(front, x, y, reach, window)
}

/// Whether one of the windows in front of a window blocks it.
fn any_blocks(front: &[Window], x: i32, y: i32, reach: &Reach, window: &Window) -> bool
    ensures { result ≡ list_any (blocks (reaches reach.now) front.now window.now x y) front.now }
{
    front
        .iter()
        .any(|other| blocks(front, x, y, reach, window, other))
}

/// Whether a window is obscured.
fn is_obscured(windows: &[Window], x: i32, y: i32, reach: &Reach, window: &Window) -> bool
    ensures { result ≡ is_obscured windows.now (reaches reach.now) x y window.now }
{
    in_front_of(windows, window.channel)
        .iter()
        .any(|other| obscures(x, y, reach, window, other))
}

/// Whether a window is overlapped.
fn is_overlapped(windows: &[Window], reach: &Reach, window: &Window) -> bool
    ensures { result ≡ is_overlapped windows.now (reaches reach.now) window.now }
{
    in_front_of(windows, window.channel)
        .iter()
        .any(|other| overlaps(reach, window, other))
}

/// The windows in front of that of a channel.
pub(crate) fn in_front_of(windows: &[Window], channel: u32) -> &[Window]
    ensures { result.now ≡ in_front_of windows.now channel }
{
    match place_in(windows, channel) {
        Some(place) => windows.split_at(place).0,
        None => windows,
    }
}

/// Whether one of the windows in front of a window blocks it.
pub(crate) fn blocks(
    front: &[Window],
    x: i32,
    y: i32,
    reach: &Reach,
    window: &Window,
    other: &Window,
) -> bool
    ensures { result ≡ blocks (reaches reach.now) front.now window.now x y other.now }
{
    obscures(x, y, reach, window, other)
        && (other.occlusion.is_blocking()
            || (other.occlusion.is_dimming()
                && clearness(front, x, y, reach, window, other.owner) < CLEAR))
}

/// How clear a window is through the windows of an owner.
fn clearness(front: &[Window], x: i32, y: i32, reach: &Reach, window: &Window, owner: u32) -> u32
    ensures { result ≡ clearness (reaches reach.now) front.now window.now x y owner }
{
    front
        .iter()
        .filter(|other| dims(x, y, reach, window, owner, other))
        .fold(LIGHT, |light, other| dimmed(light, other))
}

/// What comes through a window of the light that reaches it, rounded down.
fn dimmed(light: u32, window: &Window) -> u32
    ensures { result ≡ dimmed light window.now }
{
    let through = u64::from(light) * u64::from(Percent::MAX - window.opacity.get()) / 100;
    through as u32
}

/// Whether a window is the owner's, its opacity decides, and it obscures another one at a point.
fn dims(x: i32, y: i32, reach: &Reach, window: &Window, owner: u32, other: &Window) -> bool
    ensures { result ≡ (other.now.owner == owner
        && (is_dimming other.now.occlusion && obscures (reaches reach.now) window.now x y other.now)) }
{
    other.owner == owner && (other.occlusion.is_dimming() && obscures(x, y, reach, window, other))
}

/// Whether a window in front of another one may obscure it.
fn may_obscure(reach: &Reach, window: &Window, other: &Window) -> bool
    ensures { result ≡ may_obscure (reaches reach.now) window.now other.now }
{
    reach.has(other.channel)
        && (other.owner != window.owner && (!other.is_trusted_overlay() && !is_absent(other)))
}

/// Whether a window can be neither seen nor touched.
fn is_absent(window: &Window) -> bool
    ensures { result ≡ is_absent window.now }
{
    window.opacity.get() == 0 && !window.is_touchable()
}

/// Whether a window in front of another one obscures it at a point.
fn obscures(x: i32, y: i32, reach: &Reach, window: &Window, other: &Window) -> bool
    ensures { result ≡ obscures (reaches reach.now) window.now x y other.now }
{
    may_obscure(reach, window, other) && other.frame.contains(x, y)
}

/// Whether a window in front of another one has a point in common with it.
fn overlaps(reach: &Reach, window: &Window, other: &Window) -> bool
    ensures { result ≡ overlaps (reaches reach.now) window.now other.now }
{
    may_obscure(reach, window, other) && rects_meet(&other.frame, &window.frame)
}

/// Whether two rectangles have a point in common.
fn rects_meet(one: &Rect, other: &Rect) -> bool
    ensures { result ≡ rects_meet one.now other.now }
{
    columns_meet(one, other) && rows_meet(one, other)
}

/// Whether two rectangles have a column of pixels in common.
fn columns_meet(one: &Rect, other: &Rect) -> bool
    ensures { result ≡ stretches_meet one.now.left one.now.right other.now.left other.now.right }
{
    (one.left < one.right && one.left < other.right)
        && (other.left < one.right && other.left < other.right)
}

/// Whether two rectangles have a row of pixels in common.
fn rows_meet(one: &Rect, other: &Rect) -> bool
    ensures { result ≡ stretches_meet one.now.top one.now.bottom other.now.top other.now.bottom }
{
    (one.top < one.bottom && one.top < other.bottom)
        && (other.top < one.bottom && other.top < other.bottom)
}
