//! Devices of a live service that come and go.
ghost use Rattle.std.specs.Prelude.{◌≡◌, ⊤, nat_eq};
ghost use Rattle.plain_calls.specs.Calling.{Reads, Replies, ok_of, written};
ghost use Rattle.plain_calls.specs.Driving.{Removed, TouchAdded};
ghost use Rattle.plain_calls.specs.Layouts.{AddsKeys, layout_from};
ghost use Rattle.plain_calls.specs.Numbers.{device_of, display_of, moment_of};
ghost use Rattle.plain_calls.specs.Plugging.{cook_of};
ghost use Rattle.plain_calls.specs.Replies.{add_status, args_status};
ghost use Rattle.plain_calls.specs.Status.{no_memory};
ghost use Rattle.inputflinger_c.specs.Serving.{OnService};

use crate::service::Service;
use plain_calls::plugging;
use plain_calls::plugging::PlainCook;
use plain_calls::status::FREE;
use std::alloc::Global;

/// Unplugs a device; see `plugging::remove_device`. `FREE` if the handle is free.
#[unsafe(no_mangle)]
pub extern "C" fn inputflinger_proved_live_remove_device(
    alloc: Global,
    live: &mut Service,
    now_us: u64,
    device: u8,
) -> u32
    ensures { OnService live.old.cell.state result live.new.cell.state ⊤
        (λ old new. Reads (moment_of now_us) result (new ≡ old)
        (λ now. Reads (device_of device) result (new ≡ old)
        (λ d. Replies args_status result (Removed now d old new)))) }
{
    let Some(mut service) = live.take(alloc) else {
        return FREE;
    };
    let status = plugging::remove_device(&mut service, now_us, device);
    live.put(service);
    status
}

/// Plugs in a panel; see `plugging::add_touch`. `FREE` if the handle is free.
#[unsafe(no_mangle)]
pub extern "C" fn inputflinger_proved_live_add_touch(
    alloc: Global,
    live: &mut Service,
    display: u8,
    slots: u8,
    cook: &PlainCook,
    device: &mut u8,
) -> u32
    ensures { OnService live.old.cell.state result live.new.cell.state (device.new ≡ device.old)
        (λ old new. Reads (display_of display) result ((new ≡ old) × (device.new ≡ device.old))
        (λ y. Reads (cook_of cook.now) result ((new ≡ old) × (device.new ≡ device.old))
        (λ c. Replies add_status result (λ r. TouchAdded y slots c old new r
        × (device.new ≡ written (λ d. d) (ok_of r) device.old))))) }
{
    let Some(mut service) = live.take(alloc) else {
        return FREE;
    };
    let status = plugging::add_touch(&mut service, display, slots, cook, device);
    live.put(service);
    status
}

/// Plugs in a device with keys; see `plugging::add_keys`. `FREE` if the handle is free.
#[unsafe(no_mangle)]
pub extern "C" fn inputflinger_proved_live_add_keys(
    alloc: Global,
    live: &mut Service,
    display: u8,
    text: &[u8],
    device: &mut u8,
    line: &mut u64,
) -> u32
    ensures { OnService live.old.cell.state result live.new.cell.state
        ((device.new ≡ device.old) × (line.new ≡ line.old))
        (λ old new. Reads (display_of display) result
        ((new ≡ old) × ((device.new ≡ device.old) × (line.new ≡ line.old)))
        (λ y. AddsKeys (nat_eq result no_memory) (layout_from text.now) result y old new device.old device.new
        line.old line.new)) }
{
    let Some(mut service) = live.take(alloc) else {
        return FREE;
    };
    let status = plugging::add_keys(alloc, &mut service, display, text, device, line);
    live.put(service);
    status
}
