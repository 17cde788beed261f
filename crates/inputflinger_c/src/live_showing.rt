//! The windows of a live service, the focus, and what can be asked about its clients.
ghost use Rattle.std.specs.Prelude.{◌≡◌, ⊤};
ghost use Rattle.plain_calls.specs.Calling.{Reads, Replies};
ghost use Rattle.plain_calls.specs.Clients.{client_of, maybe_client};
ghost use Rattle.plain_calls.specs.Numbers.{display_of, moment_of};
ghost use Rattle.plain_calls.specs.Replies.{focus_status};
ghost use Rattle.plain_calls.specs.Showing.{Asked, NothingShown, ReplacesRead, ShowsRead};
ghost use Rattle.plain_calls.specs.Windows.{one_from, windows_from};
ghost use Rattle.inputflinger_c.specs.Serving.{OnService};

use crate::service::Service;
use plain_calls::status::FREE;
use plain_calls::{PlainClient, PlainRect, PlainWindow, showing};
use std::alloc::Global;

/// Replaces the windows; see `showing::windows`. `FREE` if the handle is free.
#[unsafe(no_mangle)]
pub extern "C" fn inputflinger_proved_live_windows(
    alloc: Global,
    live: &mut Service,
    now_us: u64,
    windows: &[PlainWindow],
    rects: &[PlainRect],
    named: &mut u64,
) -> u32
    ensures { OnService live.old.cell.state result live.new.cell.state (named.new ≡ named.old)
        (λ old new. Reads (moment_of now_us) result (NothingShown old new named.old named.new)
        (λ now. ShowsRead (windows_from windows.now rects.now) result now old new named.old named.new)) }
{
    let Some(mut service) = live.take(alloc) else {
        return FREE;
    };
    let status = showing::windows(alloc, &mut service, now_us, windows, rects, named);
    live.put(service);
    status
}

/// Replaces the window of a client; see `showing::window`. `FREE` if the handle is free.
#[unsafe(no_mangle)]
pub extern "C" fn inputflinger_proved_live_window(
    alloc: Global,
    live: &mut Service,
    now_us: u64,
    window: &PlainWindow,
    rects: &[PlainRect],
) -> u32
    ensures { OnService live.old.cell.state result live.new.cell.state ⊤
        (λ old new. Reads (moment_of now_us) result (new ≡ old)
        (λ now. ReplacesRead (client_of window.now.client) (one_from window.now rects.now) result now old new)) }
{
    let Some(mut service) = live.take(alloc) else {
        return FREE;
    };
    let status = showing::window(alloc, &mut service, now_us, window, rects);
    live.put(service);
    status
}

/// Requests the focus of a display; see `showing::focus`. `FREE` if the handle is free.
#[unsafe(no_mangle)]
pub extern "C" fn inputflinger_proved_live_focus(
    alloc: Global,
    live: &mut Service,
    now_us: u64,
    display: u8,
    client: &PlainClient,
) -> u32
    ensures { OnService live.old.cell.state result live.new.cell.state ⊤
        (λ old new. Reads (moment_of now_us) result (new ≡ old)
        (λ now. Reads (display_of display) result (new ≡ old)
        (λ y. Replies focus_status result (Asked now y (maybe_client client.now) old new)))) }
{
    let Some(mut service) = live.take(alloc) else {
        return FREE;
    };
    let status = showing::focus(&mut service, now_us, display, client);
    live.put(service);
    status
}
