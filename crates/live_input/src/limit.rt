//! The limit of unreceived messages.
//!
//! A client that does not receive its messages is choked once it has more than the limit: it is reported, its window is
//! shown as a wall, and the focus is requested for nobody in its place. So it loses what it holds by the usual
//! messages, and is sent nothing more. Once it has finished everything, its window and its requests are back.
ghost use Rattle.std.specs.Prelude.{◌≡◌, ◌&&◌, filter, not, true, false, None, if◌then◌else◌, IfOk};
ghost use Rattle.live_input.specs.Limit.{first_wanted, has_window, is_of_channel, put_in, unless_choked, wall_flags, wall_of, walled, walled_one, wanted_on, without_client};

use crate::client::Client;
use crate::live::Live;
use crate::windows::{ClientWindow, WindowInfo};
use bitflags::Flags;
use input_types::DisplayId;
use std::alloc::{AllocError, Global};
use std::marker::Model;
use window_snapshot::{WindowFlags, mask_has};

/// A live service with a limit of unreceived messages. Before each call that may send something, it chokes the clients
/// that have too many, and releases those that have finished everything.
#[derive(Drop)]
pub struct Limited {
    pub(crate) live: Live,
    pub(crate) wanted: Wanted,
}

/// What the program asked for, and which of it is held back.
#[derive(Drop)]
pub(crate) struct Wanted {
    /// How many messages a client may leave unreceived.
    pub(crate) most: u64,
    /// The windows that were last shown, front to back.
    pub(crate) windows: Vec<ClientWindow>,
    /// The client for which the focus of each display was last requested.
    pub(crate) requested: [Option<Client>; 4],
    /// The channels whose clients are choked.
    pub(crate) choked: u64,
    /// Whether the windows that are shown are these, with walls in place of those of choked clients.
    pub(crate) is_shown: bool,
}

impl Model for Wanted {
    ghost use Rattle.live_input.specs.Wanted.{Wanted as WantedView};

    ghost Value = { WantedView };

    ghost view = { λ w. record {
      most = w.most;
      windows = w.windows.items;
      requested = w.requested;
      choked = w.choked;
      is_shown = w.is_shown;
    } };
}

impl Wanted {
    /// Nothing is wanted yet.
    pub(crate) fn new(alloc: Global, most: u64) -> Wanted
        ensures { result ≡ first_wanted most }
    {
        Wanted {
            most,
            windows: Vec::new(alloc),
            requested: [None; 4],
            choked: 0,
            is_shown: true,
        }
    }

    /// Nothing is asked for a client that goes.
    pub(crate) fn leave(&mut self, channel: u32)
        ensures { self.new ≡ without_client channel self.old }
    {
        let has = has_window(&self.windows, channel);
        self.is_shown = shown_without(self.is_shown, has);
        drop_window(&mut self.windows, channel);
        self.requested = [
            unless_of(channel, self.requested[0]),
            unless_of(channel, self.requested[1]),
            unless_of(channel, self.requested[2]),
            unless_of(channel, self.requested[3]),
        ];
    }

    /// The client for which the focus of a display is to be requested.
    #[inline(always)]
    pub(crate) fn on(&self, display: DisplayId) -> Option<Client>
        ensures { result ≡ wanted_on self.now display }
    {
        unless_choked(self.choked, self.requested[usize::from(display.get())])
    }

    /// How many messages a client may leave unreceived.
    pub(crate) fn most(&self) -> u64
        ensures { result ≡ self.now.most }
    {
        self.most
    }

    /// The channels whose clients are choked.
    pub(crate) fn choked(&self) -> u64
        ensures { result ≡ self.now.choked }
    {
        self.choked
    }

    /// The clients of these channels are choked from now on, so the windows must be shown again.
    pub(crate) fn set_choked(&mut self, choked: u64)
        ensures { self.new ≡ record self.old { choked = choked; is_shown = false } }
    {
        self.choked = choked;
        self.is_shown = false;
    }

    /// Whether the windows that are shown are these, with the walls.
    pub(crate) fn is_shown(&self) -> bool
        ensures { result ≡ self.now.is_shown }
    {
        self.is_shown
    }

    /// The windows are shown.
    pub(crate) fn set_shown(&mut self)
        ensures { self.new ≡ record self.old { is_shown = true } }
    {
        self.is_shown = true;
    }

    /// Copies of the windows, with walls in place of those of choked clients.
    pub(crate) fn walled(&self) -> Result<Vec<ClientWindow>, AllocError>
        ensures { IfOk result (λ rows. rows.items ≡ walled self.now.choked self.now.windows) }
    {
        walled(*self.windows.allocator(), &self.windows, self.choked)
    }
}

/// Copies of the windows, with this in place of what the window of a channel was.
pub(crate) fn copies_with(
    alloc: Global,
    windows: &[ClientWindow],
    channel: u32,
    info: &WindowInfo,
) -> Result<Vec<ClientWindow>, AllocError>
    ensures { IfOk result (λ rows. rows.items ≡ put_in channel info.now windows.now) }
{
    let mut rows = Vec::with_capacity(alloc, windows.len())?;
    for window in windows {
        rows.push(put_one(window, is_of_channel(channel, window.client), info)?)?;
    }
    Ok(rows)
}

/// A copy of a window, with this in place of what it was, if so.
fn put_one(
    window: &ClientWindow,
    is_new: bool,
    info: &WindowInfo,
) -> Result<ClientWindow, AllocError>
    ensures { IfOk result
        (λ one. one ≡ (if is_new then record window.now { info = info.now } else window.now)) }
{
    if is_new {
        let info = info.copy()?;
        Ok(ClientWindow {
            client: window.client,
            info,
        })
    } else {
        window.copy()
    }
}

/// Whether one of the windows is of a channel.
pub(crate) fn has_window(windows: &[ClientWindow], channel: u32) -> bool
    ensures { result ≡ has_window channel windows.now }
{
    windows
        .iter()
        .any(|window| is_of_channel(channel, window.client))
}

/// Whether the windows are shown without one that goes: if they were shown, and it is none of them.
fn shown_without(is_shown: bool, has: bool) -> bool
    ensures { result ≡ (is_shown && not has) }
{
    is_shown && !has
}

/// Takes out the window of a channel.
fn drop_window(windows: &mut Vec<ClientWindow>, channel: u32)
    ensures { windows.new.items ≡ filter (λ w. not (is_of_channel channel w.client)) windows.old.items }
{
    windows.retain(|window| !is_of_channel(channel, window.client));
}

/// Whether this is the client of a channel.
fn is_of_channel(channel: u32, client: Option<Client>) -> bool
    ensures { result ≡ is_of_channel channel client }
{
    match client {
        Some(held) => held.channel == channel,
        None => false,
    }
}

/// The client, unless it is that of a channel.
fn unless_of(channel: u32, client: Option<Client>) -> Option<Client>
    ensures { result ≡ (if is_of_channel channel client then None else client) }
{
    if is_of_channel(channel, client) {
        None
    } else {
        client
    }
}

/// Copies of the windows, with walls in place of those of choked clients.
pub(crate) fn walled(
    alloc: Global,
    windows: &[ClientWindow],
    choked: u64,
) -> Result<Vec<ClientWindow>, AllocError>
    ensures { IfOk result (λ rows. rows.items ≡ walled choked windows.now) }
{
    let mut rows = Vec::with_capacity(alloc, windows.len())?;
    for window in windows {
        rows.push(walled_one(choked, window.client, window)?)?;
    }
    Ok(rows)
}

/// A copy of a window of a client, or the wall in its place if the client is choked.
fn walled_one(
    choked: u64,
    client: Option<Client>,
    window: &ClientWindow,
) -> Result<ClientWindow, AllocError>
    ensures { IfOk result (λ one. one ≡ walled_one choked client window.now) }
{
    match client {
        Some(held) => {
            if mask_has(choked, held.channel) {
                wall_of(window)
            } else {
                window.copy()
            }
        }
        None => window.copy(),
    }
}

/// A wall where the window is.
fn wall_of(window: &ClientWindow) -> Result<ClientWindow, AllocError>
    ensures { IfOk result (λ wall. wall ≡ wall_of window.now) }
{
    let mut info = window.info.copy()?;
    info.flags = wall_flags(info.flags);
    Ok(ClientWindow { client: None, info })
}

/// The flags of the wall in place of a window with these: that of a spy lets touches through, as the spy does.
fn wall_flags(flags: WindowFlags) -> WindowFlags
    ensures { result ≡ wall_flags flags }
{
    if flags.contains(WindowFlags::SPY) {
        flags.union(WindowFlags::NOT_TOUCHABLE)
    } else {
        flags
    }
}

/// The client, or nobody in place of a choked one.
pub(crate) fn unless_choked(choked: u64, client: Option<Client>) -> Option<Client>
    ensures { result ≡ unless_choked choked client }
{
    match client {
        Some(held) => {
            if mask_has(choked, held.channel) {
                None
            } else {
                Some(held)
            }
        }
        None => None,
    }
}
