//! Windows, and the focus.
ghost use Rattle.std.specs.Prelude.{◌≡◌};
ghost use Rattle.plain_calls.specs.Calling.{Reads, Replies, written};
ghost use Rattle.plain_calls.specs.Clients.{client_of, maybe_client};
ghost use Rattle.plain_calls.specs.Numbers.{display_of, moment_of};
ghost use Rattle.plain_calls.specs.Replies.{focus_status, named_by, window_status, windows_status};
ghost use Rattle.plain_calls.specs.Showing.{Asked, NothingShown, Replaced, ReplacesRead, Shown, ShowsRead};
ghost use Rattle.plain_calls.specs.Windows.{one_from, windows_from};

use crate::client::PlainClient;
use crate::numbers::{display_of, moment_of};
use crate::replies::focus_status;
use crate::status::{MEMORY, NOT_OPEN, NOT_SHOWN, OK, RANGE, TOO_MANY, TWICE};
use crate::windows::{PlainRect, PlainWindow, Unread, read_windows};
use input_types::Moment;
use live_input::{Client, ClientWindow, Limited, WindowInfo, WindowRefused, WindowsRefused};
use std::alloc::Global;

/// Replaces the windows by these, front to back. `NOT_OPEN` if the client of one is not open; `named` is then its
/// index. `TOO_MANY` for more than 64. `TWICE` if a client has two; `named` is then its channel. `MEMORY` if memory
/// runs out: clients may be choked or released then. On any other error nothing changes.
pub fn windows(
    alloc: Global,
    live: &mut Limited,
    now_us: u64,
    rows: &[PlainWindow],
    rects: &[PlainRect],
    named: &mut u64,
) -> u32
    ensures { Reads (moment_of now_us) result (NothingShown live.old live.new named.old named.new)
        (λ now. ShowsRead (windows_from rows.now rects.now) result now live.old live.new named.old named.new) }
{
    let Some(now) = moment_of(now_us) else {
        return RANGE;
    };
    match read_windows(alloc, rows, rects) {
        Ok(windows) => show(live, now, windows, named),
        Err(Unread::Range) => RANGE,
        Err(Unread::Memory) => MEMORY,
    }
}

/// Shows the windows.
fn show(live: &mut Limited, now: Moment, windows: Vec<ClientWindow>, named: &mut u64) -> u32
    ensures { Replies windows_status result (λ r. Shown now windows.items live.old live.new r
        × (named.new ≡ written (λ n. n) (named_by r) named.old)) }
{
    match live.windows(now, windows) {
        Ok(()) => OK,
        Err(WindowsRefused::NotOpen { place }) => {
            *named = place as u64;
            NOT_OPEN
        }
        Err(WindowsRefused::TooMany) => TOO_MANY,
        Err(WindowsRefused::Twice { channel }) => {
            *named = u64::from(channel);
            TWICE
        }
        Err(WindowsRefused::Memory) => MEMORY,
    }
}

/// Replaces the window of a client, which stays where it is, front to back. `NOT_OPEN` if the client is not open, as
/// that of a wall is not, and `NOT_SHOWN` if it has no window. `MEMORY` if memory runs out: clients may be choked or
/// released then. On any other error nothing changes.
pub fn window(
    alloc: Global,
    live: &mut Limited,
    now_us: u64,
    row: &PlainWindow,
    rects: &[PlainRect],
) -> u32
    ensures { Reads (moment_of now_us) result (live.new ≡ live.old)
        (λ now. ReplacesRead (client_of row.now.client) (one_from row.now rects.now) result now live.old live.new) }
{
    let Some(now) = moment_of(now_us) else {
        return RANGE;
    };
    match row.read_one(alloc, rects) {
        Ok(info) => put(live, now, row.client.read(), info),
        Err(Unread::Range) => RANGE,
        Err(Unread::Memory) => MEMORY,
    }
}

/// Replaces the window.
fn put(live: &mut Limited, now: Moment, client: Client, info: WindowInfo) -> u32
    ensures { Replies window_status result (Replaced now client info live.old live.new) }
{
    match live.window(now, client, info) {
        Ok(()) => OK,
        Err(WindowRefused::NotOpen) => NOT_OPEN,
        Err(WindowRefused::NotShown) => NOT_SHOWN,
        Err(WindowRefused::Memory) => MEMORY,
    }
}

/// Requests the focus of a display for a client, or for none if the channel is 0. `NOT_OPEN` if the client is not
/// open: nothing changes. `MEMORY` if memory runs out: clients may be choked or released then.
pub fn focus(live: &mut Limited, now_us: u64, display: u8, client: &PlainClient) -> u32
    ensures { Reads (moment_of now_us) result (live.new ≡ live.old)
        (λ now. Reads (display_of display) result (live.new ≡ live.old)
        (λ y. Replies focus_status result (Asked now y (maybe_client client.now) live.old live.new))) }
{
    let Some(now) = moment_of(now_us) else {
        return RANGE;
    };
    let Some(display) = display_of(display) else {
        return RANGE;
    };
    focus_status(live.focus(now, display, client.read_if_any()))
}
