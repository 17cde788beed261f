//! Whose window of a live service a touch goes to.
ghost use Rattle.std.specs.Prelude.{◌≡◌};
ghost use Rattle.plain_calls.specs.Calling.{Reads, Replies, answer_status, written};
ghost use Rattle.plain_calls.specs.Clients.{plain_client};
ghost use Rattle.plain_calls.specs.Numbers.{display_of};
ghost use Rattle.plain_calls.specs.WindowAt.{IsTouched};
ghost use Rattle.inputflinger_c.specs.Serving.{OnService};

use crate::service::Service;
use plain_calls::status::FREE;
use plain_calls::{PlainClient, window_at};
use std::alloc::Global;

/// The client whose window a touch goes to; see `window_at::window_at`. `FREE` if the handle is free.
#[unsafe(no_mangle)]
pub extern "C" fn inputflinger_proved_live_window_at(
    alloc: Global,
    live: &mut Service,
    display: u8,
    x: i32,
    y: i32,
    client: &mut PlainClient,
) -> u32
    ensures { OnService live.old.cell.state result live.new.cell.state (client.new ≡ client.old)
        (λ old new. (new ≡ old) × Reads (display_of display) result (client.new ≡ client.old)
        (λ d. Replies answer_status result
        (λ r. IsTouched old.live d (record { x = x; y = y }) r × (client.new ≡ written plain_client r client.old)))) }
{
    let Some(mut service) = live.take(alloc) else {
        return FREE;
    };
    let status = window_at::window_at(service.live(), display, x, y, client);
    live.put(service);
    status
}
