//! What a live service is asked.
ghost use Rattle.std.specs.Prelude.{◌≡◌};
ghost use Rattle.plain_calls.specs.Asking.{HasFocus, GetsKeys, Responds, Holds, IsClock};
ghost use Rattle.plain_calls.specs.Calling.{Reads, Replies, answer_status, written};
ghost use Rattle.plain_calls.specs.Clients.{client_of, plain_client};
ghost use Rattle.plain_calls.specs.Numbers.{device_of, display_of};
ghost use Rattle.plain_calls.specs.Status.{status_ok};
ghost use Rattle.inputflinger_c.specs.Serving.{OnService};

use crate::service::Service;
use plain_calls::status::{FREE, OK};
use plain_calls::{PlainClient, asking};
use std::alloc::Global;

/// The client that has the focus of a display; see `asking::focused`. `FREE` if the handle is free.
#[unsafe(no_mangle)]
pub extern "C" fn inputflinger_proved_live_focused(
    alloc: Global,
    live: &mut Service,
    display: u8,
    client: &mut PlainClient,
) -> u32
    ensures { OnService live.old.cell.state result live.new.cell.state (client.new ≡ client.old)
        (λ old new. (new ≡ old) × Reads (display_of display) result (client.new ≡ client.old)
        (λ y. Replies answer_status result
        (λ r. HasFocus old.live y r × (client.new ≡ written plain_client r client.old)))) }
{
    let Some(mut service) = live.take(alloc) else {
        return FREE;
    };
    let status = asking::focused(service.live(), display, client);
    live.put(service);
    status
}

/// The client that keys go to; see `asking::key_target`. `FREE` if the handle is free.
#[unsafe(no_mangle)]
pub extern "C" fn inputflinger_proved_live_key_target(
    alloc: Global,
    live: &mut Service,
    client: &mut PlainClient,
) -> u32
    ensures { OnService live.old.cell.state result live.new.cell.state (client.new ≡ client.old)
        (λ old new. (new ≡ old) × Replies answer_status result
        (λ r. GetsKeys old.live r × (client.new ≡ written plain_client r client.old))) }
{
    let Some(mut service) = live.take(alloc) else {
        return FREE;
    };
    let status = asking::key_target(service.live(), client);
    live.put(service);
    status
}

/// Whether a client is open and responds, as 1 or 0. `FREE` if the handle is free.
#[unsafe(no_mangle)]
pub extern "C" fn inputflinger_proved_live_is_responsive(
    alloc: Global,
    live: &mut Service,
    client: &PlainClient,
    answer: &mut u8,
) -> u32
    ensures { OnService live.old.cell.state result live.new.cell.state (answer.new ≡ answer.old)
        (λ old new. (result ≡ status_ok) × ((new ≡ old) × Responds old.live (client_of client.now) answer.new)) }
{
    let Some(mut service) = live.take(alloc) else {
        return FREE;
    };
    *answer = asking::is_responsive(service.live(), client);
    live.put(service);
    OK
}

/// The ids of the pointers of a device that a client holds; see `asking::holds`. `FREE` if the handle is free.
#[unsafe(no_mangle)]
pub extern "C" fn inputflinger_proved_live_holds(
    alloc: Global,
    live: &mut Service,
    client: &PlainClient,
    device: u8,
    ids: &mut u32,
) -> u32
    ensures { OnService live.old.cell.state result live.new.cell.state (ids.new ≡ ids.old)
        (λ old new. (new ≡ old) × Reads (device_of device) result (ids.new ≡ ids.old)
        (λ d. (result ≡ status_ok) × Holds old.live (client_of client.now) d ids.new)) }
{
    let Some(mut service) = live.take(alloc) else {
        return FREE;
    };
    let status = asking::holds(service.live(), client, device, ids);
    live.put(service);
    status
}

/// The clock: the latest time that was handed in, in microseconds. `FREE` if the handle is free.
#[unsafe(no_mangle)]
pub extern "C" fn inputflinger_proved_live_clock(
    alloc: Global,
    live: &mut Service,
    moment_us: &mut u64,
) -> u32
    ensures { OnService live.old.cell.state result live.new.cell.state (moment_us.new ≡ moment_us.old)
        (λ old new. (result ≡ status_ok) × ((new ≡ old) × IsClock old.live moment_us.new)) }
{
    let Some(mut service) = live.take(alloc) else {
        return FREE;
    };
    *moment_us = asking::clock(service.live());
    live.put(service);
    OK
}
