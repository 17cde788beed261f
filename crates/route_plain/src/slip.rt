//! A pointer that slips from one window to another.
ghost use Rattle.std.specs.Prelude.{◌≡◌, ◌&&◌, not, fold, map, filter, option_map};
ghost use Rattle.window_snapshot.specs.Window.{is_spy, is_slippery};
ghost use Rattle.routing_rules.specs.Scene.{shows};
ghost use Rattle.routing_rules.specs.Slip.{only, holders_of, slips_to, slip};
ghost use Rattle.route_plain.specs.Seen.{scene_at};
ghost use Rattle.route_plain.specs.Slipping.{rule_slip, and_one, the_one};

use crate::choice::may_take;
use crate::hold::holds_pointer;
use crate::seen::{Seen, reach_of};
use input_types::{DeviceId, Motion, MotionAction, Pixel, PointerId};
use window_snapshot::Window;

/// The window from which a pointer slips, and the one to which it slips.
#[derive(Clone, Copy)]
pub(crate) struct Slip {
    pub(crate) from: u32,
    pub(crate) to: u32,
}

/// The windows that were found.
#[derive(Clone, Copy)]
enum Found {
    Nobody,
    One(u32),
    Several,
}

/// Those and one more.
fn and_one(found: Found, channel: u32) -> Found
    ensures { result ≡ and_one found channel }
{
    match found {
        Found::Nobody => Found::One(channel),
        _ => Found::Several,
    }
}

/// The one that was found.
fn the_one(found: Found) -> Option<u32>
    ensures { result ≡ the_one found }
{
    match found {
        Found::One(channel) => Some(channel),
        _ => None,
    }
}

/// Whether the window is not a spy and holds the pointer.
fn is_holder_of(seen: &Seen, device: DeviceId, id: PointerId, window: &Window) -> bool
    ensures { result ≡ (not (is_spy window.now) && (scene_at seen.now).holds window.now.channel device id) }
{
    !window.is_spy() && holds_pointer(seen.holds, window.channel, device, id)
}

/// The windows without SPY that hold the pointer.
fn found_holders(seen: &Seen, device: DeviceId, id: PointerId) -> Found
    ensures { let s = scene_at seen.now in result
        ≡ fold and_one Found.Nobody
        (map (λ v. v.channel) (filter (λ v. not (is_spy v) && s.holds v.channel device id) s.windows)) }
{
    seen.snapshot
        .windows()
        .iter()
        .filter(|window| is_holder_of(seen, device, id, window))
        .map(|window| window.channel)
        .fold(Found::Nobody, |found, channel| and_one(found, channel))
}

/// The only window without SPY that holds the pointer.
fn only_holder(seen: &Seen, device: DeviceId, id: PointerId) -> Option<u32>
    ensures { result ≡ only (holders_of (scene_at seen.now) device id) }
{
    the_one(found_holders(seen, device, id))
}

/// Whether the channel's window is slippery.
fn is_slippery(seen: &Seen, channel: u32) -> bool
    ensures { result ≡ shows (scene_at seen.now) is_slippery channel }
{
    seen.snapshot
        .windows()
        .iter()
        .any(|window| window.channel == channel && window.is_slippery())
}

/// The slip from the only holder to the touched window, if it may slip there.
fn slips_to(
    seen: &Seen,
    device: DeviceId,
    at: Pixel,
    holder: Option<u32>,
    touched: Option<u32>,
) -> Option<Slip>
    ensures { option_map rule_slip result ≡ slips_to (scene_at seen.now) device at holder touched }
{
    match (holder, touched) {
        (Some(from), Some(to)) => {
            if is_slippery(seen, from) && to != from && may_take(seen, device, at, to) {
                Some(Slip { from, to })
            } else {
                None
            }
        }
        _ => None,
    }
}

/// Whether a motion lets a pointer slip: it is a move that lists only that pointer.
pub(crate) fn slip_of(seen: &Seen, motion: &Motion) -> Option<Slip>
    ensures { option_map rule_slip result ≡ slip (scene_at seen.now) motion.now }
{
    match motion.action {
        MotionAction::Move => match motion.pointers.as_slice() {
            [pointer] => {
                let touched = seen
                    .snapshot
                    .touched(pointer.at.x, pointer.at.y, &reach_of(seen));
                slips_to(
                    seen,
                    motion.device,
                    pointer.at,
                    only_holder(seen, motion.device, pointer.id),
                    touched,
                )
            }
            _ => None,
        },
        _ => None,
    }
}
