//! What the devices of a live service deliver, and room for it.
ghost use Rattle.std.specs.Prelude.{◌≡◌, ⊤};
ghost use Rattle.plain_calls.specs.Calling.{Reads, Replies};
ghost use Rattle.plain_calls.specs.Driving.{Happened, HandedIn, Reserved};
ghost use Rattle.plain_calls.specs.Numbers.{device_of, moment_of};
ghost use Rattle.plain_calls.specs.Plain.{args_of};
ghost use Rattle.plain_calls.specs.Replies.{args_status, reserve_status};
ghost use Rattle.inputflinger_c.specs.Serving.{OnService};

use crate::service::Service;
use plain_calls::status::FREE;
use plain_calls::{PlainMessage, giving};
use std::alloc::Global;

/// Hands in an event of a device; see `giving::event`. `FREE` if the handle is free.
#[unsafe(no_mangle)]
pub extern "C" fn inputflinger_proved_live_event(
    alloc: Global,
    live: &mut Service,
    now_us: u64,
    device: u8,
    kind: u16,
    code: u16,
    value: i32,
) -> u32
    ensures { OnService live.old.cell.state result live.new.cell.state ⊤
        (λ old new. Reads (moment_of now_us) result (new ≡ old)
        (λ now. Reads (device_of device) result (new ≡ old)
        (λ d. Replies args_status result (Happened now d kind code value old new)))) }
{
    let Some(mut service) = live.take(alloc) else {
        return FREE;
    };
    let status = giving::event(&mut service, now_us, device, kind, code, value);
    live.put(service);
    status
}

/// Makes room for events to come; see `giving::reserve`. `FREE` if the handle is free.
#[unsafe(no_mangle)]
pub extern "C" fn inputflinger_proved_live_reserve(
    alloc: Global,
    live: &mut Service,
    events: u16,
) -> u32
    ensures { OnService live.old.cell.state result live.new.cell.state ⊤
        (λ old new. Replies reserve_status result (Reserved events old new)) }
{
    let Some(mut service) = live.take(alloc) else {
        return FREE;
    };
    let status = giving::reserve(&mut service, events);
    live.put(service);
    status
}

/// Hands in a ready-made motion, key or reset; see `giving::args`. `FREE` if the handle is free.
#[unsafe(no_mangle)]
pub extern "C" fn inputflinger_proved_live_args(
    alloc: Global,
    live: &mut Service,
    now_us: u64,
    message: &PlainMessage,
) -> u32
    ensures { OnService live.old.cell.state result live.new.cell.state ⊤
        (λ old new. Reads (moment_of now_us) result (new ≡ old)
        (λ now. Reads (args_of message.now) result (new ≡ old)
        (λ a. Replies args_status result (HandedIn now a old new)))) }
{
    let Some(mut service) = live.take(alloc) else {
        return FREE;
    };
    let status = giving::args(&mut service, now_us, message);
    live.put(service);
    status
}
