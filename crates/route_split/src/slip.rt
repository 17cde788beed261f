//! A pointer that slips from one window to another.
ghost use Rattle.std.specs.Prelude.{◌≡◌, ◌&&◌, true, not, fold, map, filter, option_map, IfSome};
ghost use Rattle.window_snapshot.specs.Mask.{is_channel};
ghost use Rattle.window_snapshot.specs.Hits.{touched};
ghost use Rattle.window_snapshot.specs.Window.{is_spy, is_slippery};
ghost use Rattle.routing_rules.specs.Scene.{shows};
ghost use Rattle.routing_rules.specs.Slip.{only, holders_of, slips_to, slip};
ghost use Rattle.route_split.specs.Seen.{scene_at};
ghost use Rattle.route_split.specs.Slipping.{rule_slip, and_one, the_one};

use crate::choice::may_take_one;
use crate::seen::{Seen, holds_pointer};
use input_types::{DeviceId, Motion, MotionAction, Pointer, PointerId};
use window_snapshot::Window;

/// The window from which a pointer slips, and the one to which it slips.
#[derive(Clone, Copy, Debug)]
pub struct Way {
    pub from: u32,
    pub to: u32,
}

/// The windows that were found.
#[derive(Clone, Copy)]
enum Found {
    Nobody,
    One(u32),
    Several,
}

/// Those and one more.
fn and_one(found: Found, channel: u32) -> Found
    ensures { result ≡ and_one found channel }
{
    match found {
        Found::Nobody => Found::One(channel),
        _ => Found::Several,
    }
}

/// The one that was found.
fn the_one(found: Found) -> Option<u32>
    ensures { result ≡ the_one found }
{
    match found {
        Found::One(channel) => Some(channel),
        _ => None,
    }
}

/// Whether the window is not a spy and holds the pointer.
fn is_holder_of(seen: &Seen, device: DeviceId, id: PointerId, window: &Window) -> bool
    ensures { result ≡ (not (is_spy window.now) && (scene_at seen.now).holds window.now.channel device id) }
{
    !window.is_spy() && holds_pointer(seen.table, window.channel, id)
}

/// The windows without SPY that hold the pointer.
fn found_holders(seen: &Seen, device: DeviceId, id: PointerId) -> Found
    ensures { let s = scene_at seen.now in result
        ≡ fold and_one Found.Nobody
        (map (λ v. v.channel) (filter (λ v. not (is_spy v) && s.holds v.channel device id) s.windows)) }
{
    seen.windows
        .windows()
        .iter()
        .filter(|window| is_holder_of(seen, device, id, window))
        .map(|window| window.channel)
        .fold(Found::Nobody, |found, channel| and_one(found, channel))
}

/// The only window without SPY that holds the pointer.
fn only_holder(seen: &Seen, device: DeviceId, id: PointerId) -> Option<u32>
    ensures value { result ≡ only (holders_of (scene_at seen.now) device id) }
    ensures channel { IfSome result (λ v. is_channel v ≡ true) }
{
    the_one(found_holders(seen, device, id))
}

/// Whether the channel's window is slippery.
fn is_slippery(seen: &Seen, channel: u32) -> bool
    ensures { result ≡ shows (scene_at seen.now) is_slippery channel }
{
    seen.windows
        .windows()
        .iter()
        .any(|window| window.channel == channel && window.is_slippery())
}

/// The slip from a slippery holder to the window at the pointer's position, if that is another one that may be given
/// the pointer.
fn slips_from(seen: &Seen, device: DeviceId, from: u32, pointer: Pointer) -> Option<Way>
    requires slippery { shows (scene_at seen.now) is_slippery from ≡ true }
    requires channel { is_channel from ≡ true }
    ensures channels { IfSome result (λ x. (is_channel x.from ≡ true) × (is_channel x.to ≡ true)) }
    ensures slip { let s = scene_at seen.now in option_map rule_slip result
        ≡ slips_to s device pointer.at (Some from) (touched s.windows (s.reach device) pointer.at.x pointer.at.y) }
{
    match seen.windows.touched(pointer.at.x, pointer.at.y, seen.reach) {
        Some(to) => {
            if to != from && may_take_one(seen, device, pointer.at, to) {
                Some(Way { from, to })
            } else {
                None
            }
        }
        None => None,
    }
}

/// The slip from the only holder of a pointer to the window at its position, if it may slip there.
fn slips(seen: &Seen, device: DeviceId, pointer: Pointer) -> Option<Way>
    ensures channels { IfSome result (λ x. (is_channel x.from ≡ true) × (is_channel x.to ≡ true)) }
    ensures slip { let s = scene_at seen.now in option_map rule_slip result
        ≡ slips_to s device pointer.at (only (holders_of s device pointer.id))
        (touched s.windows (s.reach device) pointer.at.x pointer.at.y) }
{
    match only_holder(seen, device, pointer.id) {
        Some(from) => {
            if is_slippery(seen, from) {
                slips_from(seen, device, from, pointer)
            } else {
                None
            }
        }
        None => None,
    }
}

/// Whether a motion lets a pointer slip: it is a move that lists only that pointer.
pub(crate) fn slip_of(seen: &Seen, motion: &Motion) -> Option<Way>
    ensures channels { IfSome result (λ x. (is_channel x.from ≡ true) × (is_channel x.to ≡ true)) }
    ensures slip { option_map rule_slip result ≡ slip (scene_at seen.now) motion.now }
{
    match motion.action {
        MotionAction::Move => match motion.pointers.as_slice() {
            [pointer] => slips(seen, motion.device, *pointer),
            _ => None,
        },
        _ => None,
    }
}
