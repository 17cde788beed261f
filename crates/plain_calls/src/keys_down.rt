//! Which keys are down on devices.
ghost use Rattle.std.specs.Prelude.{◌≡◌};
ghost use Rattle.plain_calls.specs.Calling.{Reads, Replies, answer_status, written};
ghost use Rattle.plain_calls.specs.KeysDown.{IsFirstKey};
ghost use Rattle.plain_calls.specs.Numbers.{device_of};

use crate::numbers::device_of;
use crate::status::{NOTHING, OK, RANGE};
use live_input::Live;

/// The first key that is down on a device, from a scan code on. `NOTHING` if no key from there on is down.
pub fn first_key(live: &Live, device: u8, from: u32, scan: &mut u16) -> u32
    ensures { Reads (device_of device) result (scan.new ≡ scan.old)
        (λ d. Replies answer_status result
        (λ r. IsFirstKey live.now d from r × (scan.new ≡ written (λ n. n) r scan.old))) }
{
    let Some(device) = device_of(device) else {
        return RANGE;
    };
    match live.first_key(device, from) {
        Some(first) => {
            *scan = first;
            OK
        }
        None => NOTHING,
    }
}
