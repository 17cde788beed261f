//! The windows of clients.
ghost use Rattle.std.specs.Prelude.{◌≡◌, ◌==◌, Option, map, IfOk};
ghost use Rattle.std.specs.List.{list_any};
ghost use Rattle.window_snapshot.specs.WindowList.{first_twice};
ghost use Rattle.live_input.specs.Showing.{may_ask};
ghost use Rattle.live_input.specs.Windows.{first_stale, number_of, window_by, window_of, IsSnapshotOf};

use crate::client::{Client, Seat};
use crate::showing::may_ask;
use input_types::DisplayId;
use std::alloc::{AllocError, Global};
use touch_region::{Rect, Region};
use window_snapshot::{
    Occlusion, Percent, Snapshot, SnapshotError, Window, WindowFlags, is_channel, wall_on,
};

/// A window of a client, or of nobody. A client has at most one window. A window of nobody, a wall, is touched as
/// others are, and nobody gets what it takes: show one in place of a client that could not be opened.
#[derive(Drop)]
pub struct ClientWindow {
    /// None for a wall.
    pub client: Option<Client>,
    /// Everything else about it.
    pub info: WindowInfo,
}

/// What a window is, except whose.
#[derive(Drop)]
pub struct WindowInfo {
    /// The display that it is on. Its pixels are those of this display.
    pub display: DisplayId,
    /// Where the window is, in display pixels: its left and top edges are the origin of what its client is sent.
    pub frame: Rect,
    /// Where the window can be touched, in display pixels.
    pub region: Region,
    /// Its flags.
    pub flags: WindowFlags,
    /// Its owner, as any number. Windows of one owner trust each other.
    pub owner: u32,
    /// How much it hides of what is behind it.
    pub opacity: Percent,
    /// Whether a touch may go through it to a window of another owner.
    pub occlusion: Occlusion,
}

impl ClientWindow {
    /// The same window, with its channel in place of its client; a wall has the number of its display's walls.
    fn into_window(self) -> Window
        ensures { result ≡ window_of self }
    {
        let ClientWindow { client, info } = self;
        let channel = number_of(client, info.display);
        info.into_window(channel)
    }
}

impl ClientWindow {
    /// A copy.
    pub(crate) fn copy(&self) -> Result<ClientWindow, AllocError>
        ensures { IfOk result (λ copied. copied ≡ self.now) }
    {
        let info = self.info.copy()?;
        Ok(ClientWindow {
            client: self.client,
            info,
        })
    }
}

impl WindowInfo {
    /// A copy.
    pub(crate) fn copy(&self) -> Result<WindowInfo, AllocError>
        ensures { IfOk result (λ copied. copied ≡ self.now) }
    {
        let region = self.region.copy()?;
        Ok(WindowInfo {
            display: self.display,
            frame: self.frame,
            region,
            flags: self.flags,
            owner: self.owner,
            opacity: self.opacity,
            occlusion: self.occlusion,
        })
    }

    /// The window of this channel.
    pub(crate) fn into_window(self, channel: u32) -> Window
        ensures { result ≡ window_by channel self }
    {
        let WindowInfo {
            display,
            frame,
            region,
            flags,
            owner,
            opacity,
            occlusion,
        } = self;
        Window {
            channel,
            display,
            frame,
            region,
            flags,
            owner,
            opacity,
            occlusion,
        }
    }
}

/// The channel of a client, or the number of the walls of a display if there is none.
fn number_of(client: Option<Client>, display: DisplayId) -> u32
    ensures { result ≡ number_of client display }
{
    match client {
        Some(client) => client.channel,
        None => wall_on(display),
    }
}

/// The index of the first window whose client is not open.
pub(crate) fn first_stale(seats: &[Seat; 64], windows: &[ClientWindow]) -> Option<usize>
    ensures { result ≡ first_stale seats.now windows.now }
{
    windows
        .iter()
        .position(|window| !may_ask(seats, window.client))
}

/// The channel of the first window whose channel stands before; walls have no channel.
pub(crate) fn first_twice(windows: &[ClientWindow]) -> Option<u32>
    ensures { result ≡ first_twice (map window_of windows.now) }
{
    for (i, window) in windows.iter().enumerate() {
        let channel = number_of(window.client, window.info.display);
        if is_channel(channel) && has_number(windows.split_at(i).0, channel) {
            return Some(channel);
        }
    }
    None
}

/// Whether a window has this number in place of a channel.
fn has_number(windows: &[ClientWindow], number: u32) -> bool
    ensures { result ≡ list_any (λ w. number_of w.client w.info.display == number) windows.now }
{
    windows.iter().any(|window| number_of(window.client, window.info.display) == number)
}

/// The snapshot of the windows of clients.
pub(crate) fn snapshot_of(
    alloc: Global,
    windows: Vec<ClientWindow>,
) -> Result<Snapshot, SnapshotError>
    ensures { IsSnapshotOf (map window_of windows.items) result }
{
    match windows_of(alloc, windows) {
        Ok(windows) => Snapshot::new(windows),
        Err(_) => Err(SnapshotError::Memory),
    }
}

/// The windows by their channels.
fn windows_of(alloc: Global, windows: Vec<ClientWindow>) -> Result<Vec<Window>, AllocError>
    ensures { IfOk result (λ shown. shown.items ≡ map window_of windows.items) }
{
    let mut shown = Vec::with_capacity(alloc, windows.len())?;
    for window in windows {
        shown.push(window.into_window())?;
    }
    Ok(shown)
}
