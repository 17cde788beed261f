//! Which keys are down on the devices of a live service.
ghost use Rattle.std.specs.Prelude.{◌≡◌};
ghost use Rattle.plain_calls.specs.Calling.{Reads, Replies, answer_status, written};
ghost use Rattle.plain_calls.specs.KeysDown.{IsFirstKey};
ghost use Rattle.plain_calls.specs.Numbers.{device_of};
ghost use Rattle.inputflinger_c.specs.Serving.{OnService};

use crate::service::Service;
use plain_calls::keys_down;
use plain_calls::status::FREE;
use std::alloc::Global;

/// The first key that is down on a device, from a scan code on; see `keys_down::first_key`. `FREE` if the handle is
/// free.
#[unsafe(no_mangle)]
pub extern "C" fn inputflinger_proved_live_first_key(
    alloc: Global,
    live: &mut Service,
    device: u8,
    from: u32,
    scan: &mut u16,
) -> u32
    ensures { OnService live.old.cell.state result live.new.cell.state (scan.new ≡ scan.old)
        (λ old new. (new ≡ old) × Reads (device_of device) result (scan.new ≡ scan.old)
        (λ d. Replies answer_status result
        (λ r. IsFirstKey old.live d from r × (scan.new ≡ written (λ n. n) r scan.old)))) }
{
    let Some(mut service) = live.take(alloc) else {
        return FREE;
    };
    let status = keys_down::first_key(service.live(), device, from, scan);
    live.put(service);
    status
}
