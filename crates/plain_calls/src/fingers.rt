//! Single fingers of a panel, by touch ids.
ghost use Rattle.live_input.specs.Fingers.{cancelled, down, framed, lifted, moved};
ghost use Rattle.plain_calls.specs.Fingers.{TouchReads};

use crate::numbers::{device_of, moment_of};
use crate::replies::finger_status;
use crate::status::RANGE;
use live_input::Limited;

/// A finger goes down on a panel. `IS_DOWN` if one with its touch id is down on it, and `MANY_FINGERS` if it has no
/// free slot; no finger changes then.
pub fn touch_down(live: &mut Limited, now_us: u64, device: u8, id: i32, x: i32, y: i32) -> u32
    ensures { TouchReads now_us device (λ f. down f id x y) result live.old live.new }
{
    let Some(now) = moment_of(now_us) else {
        return RANGE;
    };
    let Some(device) = device_of(device) else {
        return RANGE;
    };
    finger_status(live.touch_down(now, device, id, x, y))
}

/// A finger moves. `NOT_DOWN` if none with its touch id is down on the panel; no finger changes then.
pub fn touch_motion(live: &mut Limited, now_us: u64, device: u8, id: i32, x: i32, y: i32) -> u32
    ensures { TouchReads now_us device (λ f. moved f id x y) result live.old live.new }
{
    let Some(now) = moment_of(now_us) else {
        return RANGE;
    };
    let Some(device) = device_of(device) else {
        return RANGE;
    };
    finger_status(live.touch_motion(now, device, id, x, y))
}

/// A finger goes up. `NOT_DOWN` if none with its touch id is down on the panel; no finger changes then.
pub fn touch_up(live: &mut Limited, now_us: u64, device: u8, id: i32) -> u32
    ensures { TouchReads now_us device (λ f. lifted f id) result live.old live.new }
{
    let Some(now) = moment_of(now_us) else {
        return RANGE;
    };
    let Some(device) = device_of(device) else {
        return RANGE;
    };
    finger_status(live.touch_up(now, device, id))
}

/// A finger is cancelled. `NOT_DOWN` if none with its touch id is down on the panel; no finger changes then.
pub fn touch_cancel(live: &mut Limited, now_us: u64, device: u8, id: i32) -> u32
    ensures { TouchReads now_us device (λ f. cancelled f id) result live.old live.new }
{
    let Some(now) = moment_of(now_us) else {
        return RANGE;
    };
    let Some(device) = device_of(device) else {
        return RANGE;
    };
    finger_status(live.touch_cancel(now, device, id))
}

/// The packet of what the fingers of a panel did ends.
pub fn touch_frame(live: &mut Limited, now_us: u64, device: u8) -> u32
    ensures { TouchReads now_us device framed result live.old live.new }
{
    let Some(now) = moment_of(now_us) else {
        return RANGE;
    };
    let Some(device) = device_of(device) else {
        return RANGE;
    };
    finger_status(live.touch_frame(now, device))
}
