//! What devices deliver, and room for it.
ghost use Rattle.std.specs.Prelude.{◌≡◌};
ghost use Rattle.plain_calls.specs.Calling.{Reads, Replies};
ghost use Rattle.plain_calls.specs.Driving.{Happened, HandedIn, Reserved};
ghost use Rattle.plain_calls.specs.Numbers.{moment_of, device_of};
ghost use Rattle.plain_calls.specs.Plain.{args_of};
ghost use Rattle.plain_calls.specs.Replies.{args_status, reserve_status};

use crate::message::PlainMessage;
use crate::numbers::{device_of, moment_of};
use crate::replies::args_status;
use crate::status::{MEMORY, OK, RANGE};
use live_input::Limited;

/// Hands in an event of a device, with the type, code and value of the kernel's `struct input_event`.
pub fn event(live: &mut Limited, now_us: u64, device: u8, kind: u16, code: u16, value: i32) -> u32
    ensures { Reads (moment_of now_us) result (live.new ≡ live.old)
        (λ now. Reads (device_of device) result (live.new ≡ live.old)
        (λ d. Replies args_status result
        (Happened now d kind code value live.old live.new))) }
{
    let Some(now) = moment_of(now_us) else {
        return RANGE;
    };
    let Some(device) = device_of(device) else {
        return RANGE;
    };
    args_status(live.event(now, device, kind, code, value))
}

/// Hands in a ready-made motion or key, or a reset of a device: the body of the message, whose number and time are
/// ignored.
pub fn args(live: &mut Limited, now_us: u64, message: &PlainMessage) -> u32
    ensures { Reads (moment_of now_us) result (live.new ≡ live.old)
        (λ now. Reads (args_of message.now) result (live.new ≡ live.old)
        (λ a. Replies args_status result (HandedIn now a live.old live.new))) }
{
    let Some(now) = moment_of(now_us) else {
        return RANGE;
    };
    let Some(args) = message.args() else {
        return RANGE;
    };
    args_status(live.args(now, args))
}

/// Makes room for the next `events` events, of any devices. `MEMORY` if memory runs out: nothing changes.
pub fn reserve(live: &mut Limited, events: u16) -> u32
    ensures { Replies reserve_status result (Reserved events live.old live.new) }
{
    match live.reserve(events) {
        Ok(()) => OK,
        Err(_) => MEMORY,
    }
}
