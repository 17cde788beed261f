//! Single fingers of a panel of a live service, by touch ids.
ghost use Rattle.std.specs.Prelude.{⊤};
ghost use Rattle.live_input.specs.Fingers.{cancelled, down, framed, lifted, moved};
ghost use Rattle.plain_calls.specs.Fingers.{TouchReads};
ghost use Rattle.inputflinger_c.specs.Serving.{OnService};

use crate::service::Service;
use plain_calls::fingers;
use plain_calls::status::FREE;
use std::alloc::Global;

/// A finger goes down on a panel; see `fingers::touch_down`. `FREE` if the handle is free.
#[unsafe(no_mangle)]
pub extern "C" fn inputflinger_proved_live_touch_down(
    alloc: Global,
    live: &mut Service,
    now_us: u64,
    device: u8,
    id: i32,
    x: i32,
    y: i32,
) -> u32
    ensures { OnService live.old.cell.state result live.new.cell.state ⊤
        (λ old new. TouchReads now_us device (λ f. down f id x y) result old new) }
{
    let Some(mut service) = live.take(alloc) else {
        return FREE;
    };
    let status = fingers::touch_down(&mut service, now_us, device, id, x, y);
    live.put(service);
    status
}

/// A finger moves; see `fingers::touch_motion`. `FREE` if the handle is free.
#[unsafe(no_mangle)]
pub extern "C" fn inputflinger_proved_live_touch_motion(
    alloc: Global,
    live: &mut Service,
    now_us: u64,
    device: u8,
    id: i32,
    x: i32,
    y: i32,
) -> u32
    ensures { OnService live.old.cell.state result live.new.cell.state ⊤
        (λ old new. TouchReads now_us device (λ f. moved f id x y) result old new) }
{
    let Some(mut service) = live.take(alloc) else {
        return FREE;
    };
    let status = fingers::touch_motion(&mut service, now_us, device, id, x, y);
    live.put(service);
    status
}

/// A finger goes up; see `fingers::touch_up`. `FREE` if the handle is free.
#[unsafe(no_mangle)]
pub extern "C" fn inputflinger_proved_live_touch_up(
    alloc: Global,
    live: &mut Service,
    now_us: u64,
    device: u8,
    id: i32,
) -> u32
    ensures { OnService live.old.cell.state result live.new.cell.state ⊤
        (λ old new. TouchReads now_us device (λ f. lifted f id) result old new) }
{
    let Some(mut service) = live.take(alloc) else {
        return FREE;
    };
    let status = fingers::touch_up(&mut service, now_us, device, id);
    live.put(service);
    status
}

/// A finger is cancelled; see `fingers::touch_cancel`. `FREE` if the handle is free.
#[unsafe(no_mangle)]
pub extern "C" fn inputflinger_proved_live_touch_cancel(
    alloc: Global,
    live: &mut Service,
    now_us: u64,
    device: u8,
    id: i32,
) -> u32
    ensures { OnService live.old.cell.state result live.new.cell.state ⊤
        (λ old new. TouchReads now_us device (λ f. cancelled f id) result old new) }
{
    let Some(mut service) = live.take(alloc) else {
        return FREE;
    };
    let status = fingers::touch_cancel(&mut service, now_us, device, id);
    live.put(service);
    status
}

/// The packet of what the fingers of a panel did ends; see `fingers::touch_frame`. `FREE` if the handle is free.
#[unsafe(no_mangle)]
pub extern "C" fn inputflinger_proved_live_touch_frame(
    alloc: Global,
    live: &mut Service,
    now_us: u64,
    device: u8,
) -> u32
    ensures { OnService live.old.cell.state result live.new.cell.state ⊤
        (λ old new. TouchReads now_us device framed result old new) }
{
    let Some(mut service) = live.take(alloc) else {
        return FREE;
    };
    let status = fingers::touch_frame(&mut service, now_us, device);
    live.put(service);
    status
}
